//! Whether a release is the one that a manifest and its files state, by comparing bytes.
ghost use Rattle.std.specs.Prelude.{◌≡◌, ◌↔◌, ◌<◌, IsTrue, Some, IfOk, map};
ghost use Rattle.std.specs.List.{slice_get};
ghost use Rattle.td_base.specs.Views.{file_at};
ghost use Rattle.catalogue.specs.Holdings.{release_held, zone_count};
ghost use Rattle.catalogue.specs.Order.{rising_by};
ghost use Rattle.catalogue.specs.Releases.{content_as_is};
ghost use Rattle.zone_meaning.specs.ZoneHistories.{HasZoneHistory, zone_bytes};
ghost use Rattle.installer.specs.Serving.{FindsWhether, HasHead, IsStated, stated_content};
ghost use Rattle.installer.specs.Serving.{stated_contents};

use crate::install_fault::InstallFault;
use catalogue::{Catalogue, Content, ZoneData, borrow_rising};
use release_check::CheckFault;
use release_manifest::{Manifest, ManifestZone};
use std::alloc::Global;
use td_base::{Bytes, FileRead, NoMemory, Store};
use zone_meaning::Zone;

/// Whether the release that a catalogue holds is the one that a manifest and its files state.
/// Everything that needs no file is compared first.
pub fn is_stated<S: Store>(
    alloc: Global,
    manifest: &Manifest,
    store: &mut S,
    last: &Catalogue<Zone>,
) -> Result<bool, InstallFault>
    requires { HasZoneHistory last.now }
    ensures { FindsWhether (S.seen store.old) (S.seen store.new)
        (λ files. IsStated files manifest.now (release_held zone_bytes last.now)) result }
{
    if !has_head(manifest, last) {
        return Ok(false);
    }
    let zones = borrow_rising(alloc, manifest.zones.as_slice())?;
    are_zones(alloc, zones.as_slice(), store, last)
}

/// Whether stamp, publisher and version are those of a manifest.
fn has_head(manifest: &Manifest, last: &Catalogue<Zone>) -> bool
    requires { HasZoneHistory last.now }
    ensures { IsTrue result ↔ HasHead manifest.now (release_held zone_bytes last.now) }
{
    manifest.stamp.seconds == last.last_stamp().seconds
        && manifest.publisher.as_slice() == last.publisher()
        && manifest.version.as_slice() == last.version()
}

/// Whether zones of a manifest, with their files, are those of the release, in its order.
fn are_zones<S: Store>(
    alloc: Global,
    zones: &[&ManifestZone],
    store: &mut S,
    last: &Catalogue<Zone>,
) -> Result<bool, InstallFault>
    requires { HasZoneHistory last.now }
    ensures { FindsWhether (S.seen store.old) (S.seen store.new) (λ files.
        stated_contents files (map (λ z. z.now) zones.now)
        ≡ Some (release_held zone_bytes last.now).contents) result }
{
    let count = last.len();
    if zones.len() != count {
        return Ok(false);
    }
    for at in 0..count {
        let same = is_zone(alloc, zones[at], store, content_at(last, at))?;
        if !same {
            return Ok(false);
        }
    }
    Ok(true)
}

/// The zone of the release at a position, counted from 0.
fn content_at(last: &Catalogue<Zone>, at: usize) -> &Content<Zone>
    requires held { HasZoneHistory last.now }
    requires within { at < zone_count last.now }
    ensures { slice_get (release_held zone_bytes last.now).contents at
        ≡ Some (content_as_is zone_bytes result.now) }
{
    &last.entry(at).content
}

/// Whether a zone of a manifest, with its file, is this one, whose aliases are in rising order.
fn is_zone<S: Store>(
    alloc: Global,
    zone: &ManifestZone,
    store: &mut S,
    held: &Content<Zone>,
) -> Result<bool, InstallFault>
    ensures { FindsWhether (S.seen store.old) (S.seen store.new) (λ files.
        stated_content files zone.now ≡ Some (content_as_is zone_bytes held.now)) result }
{
    let same = has_names(alloc, zone, held)?;
    if !same {
        return Ok(false);
    }
    is_file(alloc, zone.file.as_slice(), store, held.zone.file_bytes())
}

/// Whether the identifier and the aliases of a zone are those of a manifest.
fn has_names(alloc: Global, zone: &ManifestZone, held: &Content<Zone>) -> Result<bool, NoMemory>
    ensures { IfOk result (λ same. IsTrue same
        ↔ ((zone.now.tzid ≡ held.now.tzid)
        × (rising_by (λ a. a) zone.now.aliases ≡ held.now.aliases))) }
{
    let aliases = borrow_rising(alloc, zone.aliases.as_slice())?;
    let same_aliases = are_texts(aliases.as_slice(), held.aliases.as_slice());
    Ok(is_text(&zone.tzid, &held.tzid) && same_aliases)
}

/// Whether borrowed texts equal these, one for one.
fn are_texts(borrowed: &[&Bytes], texts: &[Bytes]) -> bool
    ensures { IsTrue result ↔ (map (λ a. a.now) borrowed.now ≡ texts.now) }
{
    if borrowed.len() != texts.len() {
        return false;
    }
    for at in 0..borrowed.len() {
        if !is_text(borrowed[at], &texts[at]) {
            return false;
        }
    }
    true
}

/// Whether two texts are equal.
fn is_text(a: &Bytes, b: &Bytes) -> bool
    ensures { IsTrue result ↔ (a.now ≡ b.now) }
{
    a.as_slice() == b.as_slice()
}

/// Whether the file at a path has exactly these bytes.
fn is_file<S: Store>(
    alloc: Global,
    path: &[u8],
    store: &mut S,
    bytes: &[u8],
) -> Result<bool, InstallFault>
    ensures { FindsWhether (S.seen store.old) (S.seen store.new)
        (λ files. file_at files path.now ≡ Some bytes.now) result }
{
    match store.read_file(alloc, path, bytes.len() as u64 + 1) {
        FileRead::Found(found) => Ok(found.as_slice() == bytes),
        FileRead::Absent => Ok(false),
        FileRead::Failed => Err(InstallFault::Check(CheckFault::ReadFault)),
        FileRead::NoMemory => Err(InstallFault::NoMemory),
    }
}
