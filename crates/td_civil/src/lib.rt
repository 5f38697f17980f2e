//! Moments in UTC, their texts, dates, and the state of local time (offset, daylight flag, name).
//! [`moment_of`] reads the text of a moment, and [`utc_text`] writes it. `Spells` of
//! `specs/Stamp.antt` is the relation of a text and its moment. It depends on `td_base` and `jiff`;
//! all crates that handle zone data use it.
#![tactic(auto)]

// Moments and the calendar.
mod calendar;
mod day_numbers;
mod moment_type;

// States of local time.
mod local_time;

// The texts of moments and dates, and the error of a bad text.
mod date_text;
mod digits;
mod fields;
mod moment_fault;
mod moment_text;

// Theorems, and which types may cross threads.
mod laws;
mod send_sync;

pub use calendar::{CivilDate, date_of_day, day_of, new_year_day, year_of};
pub use date_text::is_date;
pub use laws::{
    bounds_are, is_spelled, is_text_of, one_moment, one_text, reads_back, same_states, some_year,
    years_apart,
};
pub use local_time::{Local, Name, Observance};
pub use moment_fault::BadMoment;
pub use moment_text::{local_stamp, moment_of, text_later, utc_text};
pub use moment_type::{CYCLE, HI, LO, Moment};
