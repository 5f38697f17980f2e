ghost use Rattle.std.specs.Prelude.{◌≡◌, List, ℕ, option_copied, IfOk, IfErr};
ghost use Rattle.catalogue.specs.Releases.{release_data};
ghost use Rattle.catalogue.specs.Histories.{Fits};
ghost use Rattle.release_manifest.specs.Reading.{IsManifestText};
ghost use Rattle.zone_meaning.specs.Sound.{IsSound};
ghost use Rattle.zone_meaning.specs.ZoneHistories.{zone_bytes};
ghost use Rattle.release_check.specs.Before.{Before as Earlier, ForEachBefore, Follows};
ghost use Rattle.release_check.specs.Before.{before_held, before_of};
ghost use Rattle.release_check.specs.Found.{FindsIn, IsExaminedIn, IsManifestIn, IsOfManifest};
ghost use Rattle.release_check.specs.Found.{IsReleaseIn};
ghost use Rattle.release_check.specs.Judged.{of_manifest, RefusesText};
ghost use Rattle.release_check.specs.Faults.{IsFormed};

use crate::check_fault::CheckFault;
use crate::files::{MANIFEST_ROOM, read_in};
use crate::form_judging::judge_form;
use crate::leap_files::read_table;
use crate::manifest_judging::judge;
use crate::zone_files::read_zones;
use catalogue::{Catalogue, Release};
use release_manifest::{Manifest, ManifestFault};
use std::alloc::Global;
use td_base::{Bytes, Store};
use zone_meaning::Zone;

/// The release in a folder of the store, or the folder's first fault.
///
/// The manifest is checked first: its presence, its form, and what it says, on its own and against
/// the history of the catalogue. Then come the zone files, zone by zone, and at last the
/// leap-second file.
///
/// Without a catalogue the release is the first of its history. An empty `dir` means the store's
/// top folder.
pub fn check<S: Store>(
    alloc: Global,
    dir: &[u8],
    store: &mut S,
    last: Option<&Catalogue<Zone>>,
) -> Result<Release<Zone>, CheckFault>
    ensures held { FindsIn (S.seen store.old) (S.seen store.new) result
        (IsReleaseIn dir.now (before_held (option_copied last.entry)) result) }
    ensures found { FindsIn (S.seen store.old) (S.seen store.new) result (λ files.
        ForEachBefore (option_copied last.entry) (λ H.
        IsReleaseIn dir.now (before_of H) result files)) }
    ensures sound { IfOk result (λ r. IsSound (release_data zone_bytes r)) }
    ensures follows { IfOk result (λ r. Follows (before_held (option_copied last.entry))
        (release_data zone_bytes r)) }
    ensures fits { IfOk result (λ r. ForEachBefore (option_copied last.entry) (λ H.
        Fits H (release_data zone_bytes r))) }
{
    folder_in(alloc, dir, store, last)
}

/// The release of a manifest that has been read already, over the files of a folder of the store,
/// or the first fault. A text of the manifest that is not of its form is the first of these faults;
/// then come those of `check`.
pub fn examine<S: Store>(
    alloc: Global,
    manifest: &Manifest,
    dir: &[u8],
    store: &mut S,
    last: Option<&Catalogue<Zone>>,
) -> Result<Release<Zone>, CheckFault>
    ensures held { FindsIn (S.seen store.old) (S.seen store.new) result
        (IsExaminedIn dir.now manifest.now (before_held (option_copied last.entry)) result) }
    ensures found { FindsIn (S.seen store.old) (S.seen store.new) result (λ files.
        ForEachBefore (option_copied last.entry) (λ H.
        IsExaminedIn dir.now manifest.now (before_of H) result files)) }
    ensures sound { IfOk result (λ r. IsSound (release_data zone_bytes r)) }
    ensures follows { IfOk result (λ r. Follows (before_held (option_copied last.entry))
        (release_data zone_bytes r)) }
    ensures fits { IfOk result (λ r. ForEachBefore (option_copied last.entry) (λ H.
        Fits H (release_data zone_bytes r))) }
{
    examined_in(alloc, manifest, dir, store, last)
}

/// The release of a folder, checked against the history of a catalogue.
fn folder_in<S: Store>(
    alloc: Global,
    dir: &[u8],
    store: &mut S,
    last: Option<&Catalogue<Zone>>,
) -> Result<Release<Zone>, CheckFault>
    ensures found { FindsIn (S.seen store.old) (S.seen store.new) result
        (IsReleaseIn dir.now (before_held (option_copied last.entry)) result) }
    ensures sound { IfOk result (λ r. IsSound (release_data zone_bytes r)) }
    ensures follows { IfOk result (λ r. Follows (before_held (option_copied last.entry))
        (release_data zone_bytes r)) }
{
    let manifest = read_manifest(alloc, dir, store)?;
    let release = release_of(alloc, &manifest, dir, store, last)?;
    Ok(release)
}

/// The release of a manifest that has been read already, checked against the history of a
/// catalogue.
fn examined_in<S: Store>(
    alloc: Global,
    manifest: &Manifest,
    dir: &[u8],
    store: &mut S,
    last: Option<&Catalogue<Zone>>,
) -> Result<Release<Zone>, CheckFault>
    ensures found { FindsIn (S.seen store.old) (S.seen store.new) result
        (IsExaminedIn dir.now manifest.now (before_held (option_copied last.entry)) result) }
    ensures sound { IfOk result (λ r. IsSound (release_data zone_bytes r)) }
    ensures follows { IfOk result (λ r. Follows (before_held (option_copied last.entry))
        (release_data zone_bytes r)) }
{
    judge_form(manifest)?;
    let release = release_of(alloc, manifest, dir, store, last)?;
    Ok(release)
}

/// The release of a manifest whose texts are of their forms.
fn release_of<S: Store>(
    alloc: Global,
    manifest: &Manifest,
    dir: &[u8],
    store: &mut S,
    last: Option<&Catalogue<Zone>>,
) -> Result<Release<Zone>, CheckFault>
    requires { IsFormed manifest.now }
    ensures found { FindsIn (S.seen store.old) (S.seen store.new) result
        (IsOfManifest dir.now manifest.now (before_held (option_copied last.entry)) result) }
    ensures sound { IfOk result (λ r. IsSound (release_data zone_bytes r)) }
    ensures follows { IfOk result (λ r. Follows (before_held (option_copied last.entry))
        (release_data zone_bytes r)) }
{
    judge(alloc, manifest, last)?;
    let zones = read_zones(alloc, dir, manifest.zones.as_slice(), store, last)?;
    let leaps = read_table(alloc, dir, &manifest.leaps, store)?;
    Ok(Release {
        stamp: manifest.stamp,
        publisher: Bytes::from_slice(alloc, manifest.publisher.as_slice())?,
        version: Bytes::from_slice(alloc, manifest.version.as_slice())?,
        zones,
        leaps,
    })
}

/// The manifest of a folder.
fn read_manifest<S: Store>(alloc: Global, dir: &[u8], store: &mut S) -> Result<Manifest, CheckFault>
    ensures found { (before : Earlier) → FindsIn (S.seen store.old) (S.seen store.new) result
        (IsManifestIn dir.now before result) }
    ensures meant { IfOk result (λ m. (text : List ℕ) × IsManifestText text m) }
{
    let text = read_in(alloc, dir, b"manifest.json", MANIFEST_ROOM, store)?;
    let manifest = manifest_in(alloc, &text)?;
    Ok(manifest)
}

/// The manifest of a text.
fn manifest_in(alloc: Global, text: &Bytes) -> Result<Manifest, CheckFault>
    ensures found { IfOk result (IsManifestText text.now) }
    ensures fault { IfErr result (RefusesText text.now) }
{
    match release_manifest::read(alloc, text.as_slice()) {
        Ok(manifest) => Ok(manifest),
        Err(fault) => Err(of_manifest(fault)),
    }
}

/// Converts the fault of a manifest to that of its folder.
fn of_manifest(fault: ManifestFault) -> CheckFault
    ensures { result ≡ of_manifest fault }
{
    match fault {
        ManifestFault::NoMemory => CheckFault::NoMemory,
        fault => CheckFault::Manifest(fault),
    }
}
