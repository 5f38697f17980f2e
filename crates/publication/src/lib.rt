//! One publisher of values, and desks that load the newest published value without waiting.
//!
//! [`make`] gives a publisher and its desks. [`Publisher::publish`] appends a value to the history,
//! and each [`Desk::enter`] loads the value that is shown at that step. The history that a desk has
//! seen only grows. A desk that learns a [`Receipt`] has seen all that the receipt covers. The
//! views are the records of `specs/Views.antt`. It depends on `td_base`, `left_right`, `logbook`
//! and `atomic_table`. `installer`, `connection` and the crates of a run use it.
#![tactic(auto)]

// A publisher and its desks.
mod desk;
mod making;
mod publisher;
mod receipt;

// The two copies that are shown to the desks.
mod edition;
mod shown;
mod stage;

// The invariants of what is shared: the history, and what is shown.
mod history;
mod rule;
mod view;

// Copies that refuse a call, for tests.
mod fragile;

// Which types may cross threads.
mod send_sync;

pub use desk::Desk;
pub use fragile::{Fragile, FragilePublisher, Onlooker, make_fragile};
pub use making::make;
pub use publisher::{Ended, EndedOf, Publisher, PublisherOf};
pub use receipt::Receipt;
pub use shown::{Sets, Shown};
