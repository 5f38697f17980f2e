//! Reader of release manifests: JSON objects with the publisher, version, stamp, zone files and
//! leap second file of a release. The main call is [`read`]: `Meaning.antt` and `Reading.antt`
//! define the manifest of a text, and `Checks.antt` the first fault of a refused one. It depends on
//! `td_base`, `td_civil` and `json`; the crates that check, install and generate releases use it.
#![tactic(auto)]

// A manifest, and the error of a bad one.
mod manifest_fault;
mod manifest_type;

// A manifest, read member by member.
mod members;
mod reading;
mod zone_members;

// Theorems, and which types may cross threads.
mod laws;
mod send_sync;

pub use laws::{one_meaning, one_reading};
pub use manifest_fault::{ManifestFault, Path};
pub use manifest_type::{MOST_BYTES, MOST_DEPTH, Manifest, ManifestLeaps, ManifestZone};
pub use reading::read;
