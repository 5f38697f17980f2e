//! Laws of connections, each the contract of a function that does nothing.
//!
//! A worker serves a connection in stretches: each is one call of `connection::serve`, which reads
//! on from where the one before ended. [`stretches_join`] states what the whole connection is: its
//! bytes were read in order and each request was replied to once. The last stretch says how it
//! ended (`specs/Joined.antt`). No program calls anything here.
#![tactic(auto)]

mod joining;

pub use joining::stretches_join;
