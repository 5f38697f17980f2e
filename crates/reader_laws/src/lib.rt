//! Laws of calendars that are read. They state what is read of the lines of a part and of a rule,
//! which moments are onsets, and which part gives the state. The crate holds theorems only.
//!
//! `vtimezone_reader` defines each of these step by step, for a line, a word or a second. Here each
//! is stated over all lines and all moments (RFC 5545, sections 3.3.10 and 3.6.5).
#![tactic(auto)]

mod calendars;
mod onsets;
mod parts;
mod rules;

pub use calendars::calendars_have_their_parts;
pub use onsets::{onsets_are_those_of_parts, the_latest_part_gives_the_state};
pub use parts::parts_have_their_lines;
pub use rules::rules_have_no_interval;
