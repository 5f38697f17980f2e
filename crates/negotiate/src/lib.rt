//! Content negotiation (RFC 9110). [`choose`] gives the format that an Accept field chooses
//! (`specs/Choices.antt`), and [`none_match`] whether an If-None-Match field has an entity tag
//! (`specs/Tags.antt`). [`unnamed_is_not_chosen`] is a theorem: if no element matches calendars as
//! JSON, the choice is the same as among the other formats. It depends on `td_base`; `actions` uses
//! it.
#![tactic(auto)]

// The choice of a format.
mod choosing;
mod qualities;

// Entity tags.
mod tags;

// Theorems, and which types may cross threads.
mod laws;
mod send_sync;

pub use choosing::{Format, choose};
pub use laws::unnamed_is_not_chosen;
pub use tags::none_match;
