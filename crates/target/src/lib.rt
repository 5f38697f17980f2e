//! Reader of request targets (RFC 7808, section 5): one of the actions with its parameters, or none
//! of them. [`read`] computes `asks` of `specs/Actions.antt`. [`asks_by_name`] is the theorem that
//! each zone has a target. It depends on `td_base`, `percent_encoding` and `form_urlencoded`;
//! `actions` and `connection` use it.
#![tactic(auto)]

// The actions and their parameters.
mod asked_types;

// Reading a target: its segments, its query, and the table of actions.
mod parameters;
mod reading;
mod segments;

// Theorems, and which types may cross threads.
mod laws;
mod send_sync;

pub use asked_types::{Asked, Param};
pub use laws::asks_by_name;
pub use reading::read;
