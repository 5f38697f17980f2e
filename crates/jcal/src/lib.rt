//! Calendars of time zones as JSON, known as jCal (RFC 7265).
//!
//! `write` appends the text of `specs/Tree.antt`: the calendar of a time zone with parts of
//! `recurrence`. That tree, read as `specs/Reading.antt` defines, gives back what was written. So
//! the parts mean here what they mean in `text/calendar`.
//!
//! Rules and parts are those of `recurrence`, and the text is written by `json`. `actions` serves
//! these calendars, next to those of `vtimezone`.
#![tactic(auto)]

// Values, the rules of parts, properties and components.
mod components;
mod properties;
mod recurs;
mod texts;
mod values;

// Parts, and the calendar.
mod calendars;
mod parts;

// Laws.
mod laws;

pub use calendars::write;
pub use laws::calendar_spells;
