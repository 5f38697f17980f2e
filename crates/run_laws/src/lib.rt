//! Laws of whole runs: what is printed of calendars, how the syncs of a run with a primary end, and
//! the limits of serving. They judge the definitions of `run_ends` by a second statement. The crate
//! holds theorems only: no program calls it.
//!
//! What it names of `run_ends` stands in `specs/Runs.antt` alone.
#![tactic(auto)]

mod limits;
mod printing;
mod syncs;

pub use limits::serving_limits_are_these;
pub use printing::printed_onsets_are_in_range;
pub use syncs::{another_history_is_served, runs_understand_their_primary};
