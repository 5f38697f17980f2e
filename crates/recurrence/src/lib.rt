//! Yearly rules of calendars (RFC 5545, section 3.3.10), and footers of zone files translated to
//! them.
//!
//! `carry` gives what a footer says of each year, if yearly rules can say it (`specs/Carried.antt`
//! of `posix_footer`). By `specs/Occurs.antt`, its rules fall on the footer's changes in every
//! year. A `valid` rule falls on one day of each year, and `occurrence` is that day. `Range` and
//! `Part` are the range and the components of a VTIMEZONE.
//!
//! Footers come from `posix_footer`, dates from `jiff`. The writers and readers of calendars use
//! this crate (`vtimezone`, `jcal`, `vtimezone_reader`), and `release_check` does for footers that
//! no rules can say.
#![tactic(auto)]

// Rules, the parts of calendars, and the fault of footers that no rules can say.
mod moment_list;
mod part_types;
mod rule_fault;
mod rule_types;

// Footers, translated to rules.
mod all_year;
mod date_rules;
mod footer_rules;
mod steady_dates;

// Which rules fall on one day of each year, and on which.
mod validity;
mod yearly;

// Laws, and what may cross threads.
mod laws;
mod send_sync;

pub use footer_rules::carry;
pub use laws::{
    all_year_daylight, apart_in_each_year, falls_once, keeps_onsets, onset_in_year, onsets_ordered,
    steady_dates_are,
};
pub use moment_list::Moments;
pub use part_types::{Part, Range};
pub use rule_fault::RuleBeyond;
pub use rule_types::{Carried, Form, Rule};
pub use validity::valid;
pub use yearly::occurrence;
