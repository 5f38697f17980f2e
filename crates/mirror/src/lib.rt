//! A mirror that follows another server of time zones (RFC 7808, section 4.2.2). [`sync`] sends
//! requests to it until a list of changes comes back empty.
//!
//! What the bytes of an answer mean for a request is `Means` of `specs/Understanding.antt`, and
//! [`one_meaning`] is the law that an answer has one meaning. The exchanges of a sync, and how it
//! ends, are `Syncs` of `specs/Shares.antt`.
//!
//! The state of the mirror is that of `sync_core`, and requests and replies are those of
//! `http_client`. `td_top` runs syncs, and `calendar_mirror` does so for calendars.
#![tactic(auto)]

// The meaning of an answer to a request.
mod understanding;
mod understood_type;

// One exchange, and all of them.
mod limits;
mod sync_fault;
mod syncing;
mod taken_type;
mod turns;

// Laws, and what may cross threads.
mod laws;
mod send_sync;

pub use laws::one_meaning;
pub use limits::{MOST_ANSWER, MOST_LISTS};
pub use sync_fault::SyncFault;
pub use syncing::sync;
pub use taken_type::Taken;
pub use turns::taken_by;
pub use understanding::understand;
pub use understood_type::Understood;
