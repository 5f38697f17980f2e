use td_civil::Local;

/// A day of each year, and a second of that day by the clocks in force before it.
#[derive(Clone, Copy, Debug, PartialEq, Eq)]
pub struct Rule {
    pub form: Form,
    /// Seconds from midnight, below 86400.
    pub second: u32,
}

/// A day of each year (RFC 5545, section 3.3.10). Weekday 0 is Sunday.
#[derive(Clone, Copy, Debug, PartialEq, Eq)]
pub enum Form {
    /// The nth such weekday of the month, from 1 to 4, or the last for -1.
    NthDay { month: u8, nth: i8, weekday: u8 },
    /// The weekday among the seven days of the month that begin with the first.
    MonthDays { month: u8, first: u8, weekday: u8 },
    /// The weekday among the seven days of the year that begin with `first`. It counts from 1 at
    /// the start of the year, or backwards from -1 at its end.
    YearDays { first: i16, weekday: u8 },
    /// One date.
    FixedDate { month: u8, day: u8 },
}

/// What a footer says of each year.
#[derive(Debug, Drop, PartialEq, Eq)]
pub enum Carried {
    /// One state is always in force.
    Constant(Local),
    /// Two states alternate.
    Pair {
        std: Local,
        dst: Local,
        /// When daylight saving time begins, by the clocks of standard time.
        start: Rule,
        /// When it ends, by the clocks of daylight saving time.
        end: Rule,
    },
}
