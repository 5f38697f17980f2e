//! Worker threads with a foreground task in the caller's thread, and the cancellation flag that
//! stops them. [`run_beside`] starts each job, runs the foreground task ([`Beside`]), stops it and
//! joins the jobs (`specs/Pool.antt`). Each job names the flag that it [`StopsBy`], which must be
//! the foreground task's.
//!
//! One owner raises a [`StopFlag`], and each worker reads its own [`StopSign`] without waiting.
//! `specs/Flag.antt` defines what a flag and its signs know, and the invariant of the shared word.
//! It depends on `td_base` and `atomic_table`; `connection` and `td_top` use it.
#![tactic(auto)]

// Jobs in threads, with a foreground task in the caller's thread.
mod beside;
mod pool;
mod pool_end;
mod stops_by;

// The flag that stops them, and the invariant of its shared word.
mod flag;
mod knows;
mod rule;

// Which types may cross threads.
mod send_sync;

pub use beside::Beside;
pub use flag::{StopFlag, StopSign};
pub use pool::run_beside;
pub use pool_end::PoolEnd;
pub use stops_by::StopsBy;
