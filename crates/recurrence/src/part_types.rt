use crate::{Moments, Rule};
use td_civil::{Moment, Name};

/// The moments that a requested calendar covers.
#[derive(Clone, Copy, PartialEq, Eq)]
pub struct Range {
    /// The first of them.
    pub from: Moment,
    /// The first moment after them. None if the range is not limited.
    pub until: Option<Moment>,
}

/// A part of a VTIMEZONE (RFC 5545, section 3.6.5): the same change of local time at several
/// moments, listed by date or one in each year.
#[derive(Drop)]
pub struct Part {
    /// Whether daylight saving time is in force after its onsets.
    pub dst: bool,
    /// The first onset.
    pub start: Moment,
    /// The offset before its onsets, in seconds east of UTC.
    pub from: i32,
    /// The offset after them, in seconds east of UTC.
    pub to: i32,
    /// The abbreviation of local time after them.
    pub name: Name,
    /// The day and time of its onsets, if it has one in each year.
    pub rule: Option<Rule>,
    /// The last onset, if the rule ends.
    pub until: Option<Moment>,
    /// Its other onsets that are listed one by one.
    pub dates: Moments,
}
