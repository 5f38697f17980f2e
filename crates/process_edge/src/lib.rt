//! The edge of a process: it collects the command-line arguments, and reports on standard error why
//! a run failed. The failures are those of `devices`, and the program `tzdistd` calls this crate.
#![tactic(auto)]

mod complaint;
mod failures;
mod words;

pub use complaint::{Complaint, OUT_OF_MEMORY, complain};
pub use failures::Failures;
pub use words::collect;
