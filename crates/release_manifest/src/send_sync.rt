//! The types of this crate are `Send` and `Sync`.
use crate::{Manifest, ManifestFault, ManifestLeaps, ManifestZone, Path};

fn is_shared<T: Send + Sync>() {}

fn types_are_shared() {
    is_shared::<Manifest>();
    is_shared::<ManifestZone>();
    is_shared::<ManifestLeaps>();
    is_shared::<ManifestFault>();
    is_shared::<Path>();
}
