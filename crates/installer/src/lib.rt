//! Installs releases: extends a history by the releases of folders, and publishes each.
//!
//! [`Installer::open`] publishes the release of a first folder for a given number of desks, and
//! [`Installer::install`] that of one more. A release is published exactly when the folder gives it
//! after the history so far, and memory suffices. For `install` it is also needed that no rule
//! refuses it. Every refusal leaves the history as it was. The contract of an install is `Installs`
//! of specs/Installing.antt. [`first_in`] and [`next_in`] make the catalogues without publishing
//! them.
//!
//! [`Installer::open_manifest`], [`Installer::install_manifest`], [`first_stated`] and
//! [`next_stated`] do the same for a manifest that the caller has, by `InstallsStated`.
//! [`Installer::serves`] returns whether such a manifest and its files are what was published last,
//! by `IsServed` of specs/Serving.antt.
//!
//! [`Installer::subscribe`] adds a subscriber to later installs. Its notice of an install is
//! prepared before the release is published, and held once it is (`all_hear` of `subscribers`). A
//! refused install leaves no notice.
//!
//! The crate stands on `release_check` (reading a folder), `admission` (rules), `subscribers` and
//! `publication`. `td_top` and `plain_commands` call it.
#![tactic(auto)]

// Installs, and why one is refused.
mod install_fault;
mod installing;

// The catalogues that they publish, the rules applied before, and the subscribers.
mod admitting;
mod asked;
mod growing;
mod hearing;

// Whether a release is already published.
mod comparing;

// A law, and what may cross threads.
mod laws;
mod send_sync;

pub use asked::InstallPolicy;
pub use growing::{first_in, first_stated, next_in, next_stated};
pub use install_fault::InstallFault;
pub use installing::Installer;
pub use laws::given_is_served;
