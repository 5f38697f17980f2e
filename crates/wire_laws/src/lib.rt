//! Laws of a connection of the event loop over any number of calls: what its reads give, and what
//! its writes send. The crate holds theorems only: no program calls it.
#![tactic(auto)]

mod limits;
mod streams;

pub use limits::socket_limits_are_these;
pub use streams::{reads_are_cuts, writes_are_kept};
