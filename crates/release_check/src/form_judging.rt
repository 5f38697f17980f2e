//! Checks the texts of a manifest value.
ghost use Rattle.std.specs.Prelude.{◌≡◌};
ghost use Rattle.release_check.specs.Judged.{JudgesUnread};
ghost use Rattle.release_check.specs.Faults.{form_fault, has_date};

use crate::check_fault::CheckFault;
use release_manifest::{Manifest, ManifestFault, ManifestLeaps, Path};
use td_base::is_label;
use td_civil::is_date;

/// Looks for the first text of a manifest value that is not of its form.
#[tactic(auto, unfolding(crate::specs::Faults::form_fault))]
pub fn judge_form(manifest: &Manifest) -> Result<(), CheckFault>
    ensures { JudgesUnread (form_fault manifest.now) result }
{
    if !is_label(manifest.publisher.as_slice()) {
        return Err(CheckFault::Manifest(ManifestFault::Text(Path::Publisher)));
    }
    if !is_label(manifest.version.as_slice()) {
        return Err(CheckFault::Manifest(ManifestFault::Text(Path::Version)));
    }
    if !manifest.stamp.has_meaning() {
        return Err(CheckFault::Manifest(ManifestFault::Text(Path::Stamp)));
    }
    if !has_date(&manifest.leaps) {
        return Err(CheckFault::Manifest(ManifestFault::Text(Path::Expires)));
    }
    Ok(())
}

/// Whether the expiry of the table of leap seconds, if there is one, is a date.
fn has_date(leaps: &Option<ManifestLeaps>) -> bool
    ensures { result ≡ has_date leaps.now }
{
    match leaps {
        None => true,
        Some(leaps) => is_date(leaps.expires.as_slice()),
    }
}
