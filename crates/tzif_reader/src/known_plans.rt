//! Plans of the files of known zones, for the tests of crates that use this one.
use crate::Plan;

/// Etc/UTC, without transitions.
pub const UTC: Plan<'static> = Plan {
    times: &[],
    numbers: &[],
    types: &[(0, 0, 0)],
    designations: b"UTC\0",
    leaps: &[],
    standard: &[],
    ut: &[],
    footer: b"UTC0",
};

/// America/New_York by the rule of 2007: one transition, to daylight saving time on 2007-03-11.
pub const NEW_YORK: Plan<'static> = Plan {
    times: &[1_173_596_400],
    numbers: &[1],
    types: &[(-18_000, 0, 0), (-14_400, 1, 4)],
    designations: b"EST\0EDT\0",
    leaps: &[],
    standard: &[],
    ut: &[],
    footer: b"EST5EDT,M3.2.0,M11.1.0",
};

/// Africa/Cairo by the rule of 2023: no transition, and daylight saving time ends at 24:00.
pub const CAIRO: Plan<'static> = Plan {
    times: &[],
    numbers: &[],
    types: &[(7_200, 0, 0)],
    designations: b"EET\0",
    leaps: &[],
    standard: &[],
    ut: &[],
    footer: b"EET-2EEST,M4.5.5/0,M10.5.4/24",
};
