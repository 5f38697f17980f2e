use td_base::{Bytes, Items};
use td_civil::Moment;

/// A zone of a release: its identifier, its aliases in any order, and its data.
#[derive(Drop)]
pub struct Content<Z> {
    pub tzid: Bytes,
    pub aliases: Items<Bytes>,
    pub zone: Z,
}

/// The difference of TAI and UTC from the first second of a day on, in UTC.
#[derive(Clone, Copy, PartialEq, Eq)]
pub struct LeapStep {
    /// Days since 1970-01-01.
    pub day: i64,
    /// TAI minus UTC, in seconds.
    pub offset: i32,
}

/// A table of leap seconds.
#[derive(Drop)]
pub struct Leaps {
    /// The bytes of the file that the table was read from.
    pub file: Bytes,
    /// The date, `YYYY-MM-DD`, from which the table is expired.
    pub expires: Bytes,
    pub steps: Items<LeapStep>,
}

/// A release of time zone data. Its zones may be in any order.
#[derive(Drop)]
pub struct Release<Z> {
    /// When it was published, in UTC.
    pub stamp: Moment,
    pub publisher: Bytes,
    pub version: Bytes,
    pub zones: Items<Content<Z>>,
    pub leaps: Option<Leaps>,
}
