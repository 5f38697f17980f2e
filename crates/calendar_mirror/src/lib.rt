//! A mirror that follows a server of calendars (RFC 7808, section 4.2.2). [`sync`] sends requests
//! until a list of changes comes back empty, as `mirror::sync` does, but keeps a calendar (RFC
//! 5545) instead of each zone's file.
//!
//! What the bytes of an answer are to its request is `IsJudged` of `specs/Judging.antt`.
//! [`one_judgement`] is the law that an answer has at most one such meaning. The exchanges of a
//! sync, and how it ends, are `CalendarSyncs` of `specs/CalendarShares.antt`.
//!
//! The crate stands on `mirror`, `sync_core` and `vtimezone_reader`. `plain_commands` calls it.
#![tactic(auto)]

// What an answer is to its request.
mod judged_type;
mod judging;

// One exchange, and all of them.
mod sync_fault;
mod syncing;
mod turns;

// Laws, and what may cross threads.
mod laws;
mod send_sync;

pub use judged_type::Judged;
pub use judging::judge;
pub use laws::one_judgement;
pub use sync_fault::CalendarSyncFault;
pub use syncing::sync;
