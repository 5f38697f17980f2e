use td_base::{Bytes, Items};
use td_civil::{Local, Moment};

/// The most bytes that a zone file may have.
pub const MOST_BYTES: usize = 65_536;

/// The most transitions that a zone file may have.
pub const MOST_TRANSITIONS: u32 = 4_096;

/// A leap line: the second from which the correction holds, on the scale that counts leap seconds.
#[derive(Clone, Copy, PartialEq, Eq)]
pub struct LeapLine {
    pub at: i64,
    /// In seconds.
    pub correction: i32,
}

/// The content of a zone file, from its data block of version 2 or later and its footer (RFC 9636,
/// sections 3.2 and 3.3).
#[derive(Drop)]
pub struct ZoneFile {
    /// The transition times in UTC, in rising order.
    pub moments: Items<Moment>,
    /// For each transition, the index of the local time type from it on, one byte each.
    pub numbers: Bytes,
    /// The local time types. The first holds before the first transition.
    pub kinds: Items<Local>,
    pub leaps: Items<LeapLine>,
    /// A POSIX TZ string for the time after the last transition, or nothing.
    pub footer: Bytes,
}
