//! POSIX TZ strings, and the state of local time that they give. Rule hours may be from -167 to
//! 167, as version 3 of TZif allows (RFC 9636, section 3.3.2).
//!
//! [`read`] gives the rule of a text, as `SpellsFooter` of `specs/Spelling.antt` defines it, or the
//! first fault of the text. [`at`] gives the state of a rule at a moment (`state_of` of
//! `specs/StateAt.antt`). [`next_onset`] gives the next moment at which the state may change, and
//! [`next_change`] that moment with the state from then on. A walk keeps the onsets ahead
//! ([`ahead_of`], [`change_ahead`], [`ahead_after`]). It depends on `td_base`, `td_civil` and
//! `jiff`; the crates that expand and serve zones use it.
#![tactic(auto)]

// The rule of a TZ string, and the error of a bad one.
mod footer_fault;
mod rule_types;

// A TZ string, read from its text.
mod items;
mod parser;
mod reading;

// The state that it gives at a moment, and when that changes.
mod ahead;
mod next_edge;
mod onsets;
mod state_at;

// Theorems, and which types may cross threads.
mod laws;
mod send_sync;

pub use ahead::{Ahead, YearOnset, ahead_after, ahead_of};
pub use footer_fault::FooterFault;
pub use laws::{
    day_is_named, day_of_week_form, far_years_are_quiet, footer_is_lawful, onsets_rise,
    state_stays, states_repeat,
};
pub use next_edge::{Change, change_ahead, next_change, next_onset};
pub use onsets::onset;
pub use reading::read;
pub use rule_types::{Date, DayForm, DstRule, Edge, Footer};
pub use state_at::at;
