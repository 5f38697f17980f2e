//! An index of a list of numbers, such as the places at which the zones of a release last changed.
//! [`index`] makes it, and [`ChangeIndex::after`] borrows its entries with a number above a given
//! one. [`ChangeIndex::positions_after`] gives the positions of these numbers in the list.
//! Contracts see a [`ChangeIndex`] as the list that it was made from; `specs/Keeping.antt` defines
//! its entries. It depends on no crate of the workspace, and `catalogue` uses it.
#![tactic(auto)]

// A number with its position, and the error when out of memory.
mod no_memory;
mod placed;

// The entries of an index, and how it is made.
mod kept;
mod making;

// Which types may cross threads.
mod send_sync;

pub use kept::ChangeIndex;
pub use making::index;
pub use no_memory::NoMemory;
pub use placed::Placed;
