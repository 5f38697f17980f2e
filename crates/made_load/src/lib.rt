//! A generated load: releases by their numbers, the requests that are served after each, and the
//! counts of the replies.
//!
//! [`release`] gives `made_manifest` and `made_files` of `specs/Releases.antt`. [`requests`] gives
//! the bytes of `specs/Requests.antt`. [`LoadCounts`] counts replies from their bytes, and
//! [`summary`] writes the line of `specs/Counts.antt`.
//!
//! Files are built by `tzif_reader`, and replies are read by `http_client` and `json_forms`.
//! `plain_commands` runs the load.
#![tactic(auto)]

// The releases: their zones, the files of these, and the manifest.
mod hours;
mod releases;
mod zones;

// The requests.
mod asking;
mod targets;

// The counts of the replies.
mod counts;
mod summing;

// What may cross threads.
mod send_sync;

pub use asking::requests;
pub use counts::LoadCounts;
pub use releases::release;
pub use summing::summary;
