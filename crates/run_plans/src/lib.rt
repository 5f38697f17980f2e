//! What a case of `run_cases` says: the words and the input of a run, the objects in memory over
//! which it runs, and how it must end. [`Case`] reads its lines, makes the objects and compares
//! ends. `run_cases` runs the top call over them.
//!
//! It depends on `td_base` and `case_lines`. The table of `run_cases` explains its own lines.
#![tactic(auto)]

// A case, how its runs differ, and how they must end.
mod case;
mod ending;
mod exchanges;
mod trial;

// The objects in memory over which it runs.
mod outside;
mod plan;
mod watched;

pub use case::Case;
pub use ending::{ConnEnd, DoorEnd, NetworkAsked, RunResult};
pub use exchanges::PastExchange;
pub use outside::{CaseDoor, CaseUpstream, File, Sizes, calls, network_of, store_of};
pub use plan::{ConnPlan, DoorPlan, NetworkPlan, StepPlan, UpstreamPlan};
pub use trial::Trial;
pub use watched::{Calls, WatchedNetwork, WatchedSpawner};
