//! Checks the folder of a release against the history before it. It reads the manifest and the
//! files that the manifest names, and returns the release or the folder's first fault.
//!
//! [`check`] is the main call; its result is defined by `FolderGives` in `specs/Folder.antt`.
//! [`examine`] checks a manifest that has been read already.
//!
//! Manifests come from `release_manifest`, zones from `zone_meaning`, rules from `recurrence`, and
//! leap seconds from `leap_table`. `installer` checks each release by this crate before it installs
//! it.
#![tactic(auto)]

// The check of a folder, and its first fault.
mod check_fault;
mod checking;

// What the manifest says, on its own and against a history.
mod duplicates;
mod form_judging;
mod history_judging;
mod manifest_judging;

// What the files that the manifest names hold.
mod files;
mod leap_files;
mod text_copies;
mod zone_files;
mod zone_judging;

// Laws, and what may cross threads.
mod laws;
mod send_sync;

pub use check_fault::{CheckFault, LeapFileFault, Limited};
pub use checking::{check, examine};
pub use laws::{fitting_release, held_before, one_folder};
