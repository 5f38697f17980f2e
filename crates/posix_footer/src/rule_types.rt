use td_civil::Local;

/// The rule of a TZ string.
#[derive(Drop, PartialEq, Eq)]
pub struct Footer {
    /// The state in standard time.
    pub std: Local,
    /// Daylight saving time, if the string has it.
    pub dst: Option<DstRule>,
}

/// When daylight saving time holds in each year.
#[derive(Drop, PartialEq, Eq)]
pub struct DstRule {
    /// The state in daylight saving time.
    pub dst: Local,
    /// When it begins, by the clocks of standard time.
    pub start: Date,
    /// When it ends, by the clocks of daylight saving time.
    pub end: Date,
}

/// A day of each year, and a time by the clocks in force before it.
#[derive(Clone, Copy, PartialEq, Eq)]
pub struct Date {
    pub day: DayForm,
    /// Seconds from midnight of the day, from -604799 to 604799.
    pub time: i32,
}

/// The forms of a day (POSIX, section 8.3).
#[derive(Clone, Copy, PartialEq, Eq)]
pub enum DayForm {
    /// `Jn`: the nth day of the year from 1, where 29 February is never counted.
    Julian(u16),
    /// `n`: the nth day of the year from 0, where 29 February is counted.
    YearDay(u16),
    /// `Mm.w.d`: the wth such weekday of the month, the last for 5. Weekday 0 is Sunday.
    Week { month: u8, week: u8, weekday: u8 },
}

/// The two changes of a year.
#[derive(Clone, Copy, PartialEq, Eq)]
pub enum Edge {
    /// Daylight saving time begins.
    Start,
    /// Daylight saving time ends.
    End,
}
