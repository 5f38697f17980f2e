//! Reads calendars of time zones: the VTIMEZONE of a text (RFC 5545, section 3.6.5), and what it
//! means.
//!
//! [`read`] gives the calendar of a text, or its first fault, line by line as
//! `specs/ReadLines.antt` defines. [`expand`] gives the observances of a calendar in a range. They
//! are defined as those of a zone are, with the state after the latest onset at each moment
//! (`specs/Onsets.antt`).
//!
//! Lines are unfolded by `ical_lines`, and rules are those of `recurrence`. `calendar_mirror`
//! checks the calendars of its upstream by this crate, and `plain_commands` expands them.
#![tactic(auto)]

// Calendars, and why a text is not one.
mod calendar_fault;
mod calendar_type;

// Lines and their values.
mod content_lines;
mod pieces;
mod time_texts;

// The rules of parts.
mod day_words;
mod forms;
mod numbers;
mod rule_words;

// The lines of a part, of a zone and of a calendar.
mod part_lines;
mod reading;
mod standing;
mod zone_lines;

// Onsets, and the observances of a range.
mod begun;
mod expanding;
mod least_onset;
mod onsets;
mod turns;

// Laws, and what may cross threads.
mod laws;
mod send_sync;

pub use calendar_fault::CalendarFault;
pub use calendar_type::{Calendar, MOST_BYTES, Observances, Parts};
pub use expanding::expand;
pub use laws::{read_is_sound, reads_back, zone_is_read, zone_is_told};
pub use least_onset::first_onset;
pub use reading::read;
