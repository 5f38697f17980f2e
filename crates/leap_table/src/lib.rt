//! Tables of leap seconds, read from the leap-second records of zone files (RFC 9636, section 3.2).
//! They serve as the leap seconds of a release (RFC 7808, section 6.4).
//!
//! [`from_file`] is the main call. Which records form a table, and which steps it has, is defined
//! in `specs/LeapSteps.antt` of `tzif_reader`. The table's type is that of `catalogue`.
//! `release_check` reads tables, and `actions` serves them.
#![tactic(auto)]

// The table of a file, and why its leap-second records are not one.
mod leap_fault;
mod table;

// Single leap-second records.
mod leap_lines;

// Laws, and what may cross threads.
mod laws;
mod send_sync;

pub use laws::{dates_are_plain, steps_are_dated};
pub use leap_fault::LeapFault;
pub use table::from_file;
