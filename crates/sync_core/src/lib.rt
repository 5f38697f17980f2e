//! The state of a secondary while it follows a primary (RFC 7808, section 4.2.2). It gives the next
//! request, and takes each decoded response. No bytes are exchanged here.
//!
//! A [`Mirror`] is seen as its state, `MirrorState` of `specs/Mirrors.antt`. `ask` gives the next
//! request, `ask_of` of that state. `take` makes the step `sync_step` of `specs/Steps.antt`.
//! `manifest` gives the release to be served, `manifest_of` of `specs/Published.antt`.
//!
//! Lists are those of `json_forms`, and manifests those of `release_manifest`. `mirror` drives this
//! state over the network, and `sync_world` states the laws of a whole sync.
#![tactic(auto)]

// A mirror, and the responses that it takes.
mod heard_type;
mod mirror;

// Merges the list that it takes, and drops names that became aliases.
mod aliases;
mod listed;
mod merging;

// The release that it serves.
mod mirror_files;
mod publishing;

// What may cross threads.
mod send_sync;

pub use heard_type::{Heard, Settled};
pub use mirror::Mirror;
pub use mirror_files::MirrorFiles;
