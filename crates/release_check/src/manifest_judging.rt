ghost use Rattle.std.specs.Prelude.{◌≡◌, ◌∷◌, ◌++◌, map, option_copied, IfOk, OnOk};
ghost use Rattle.std.specs.List.{list_all};
ghost use Rattle.td_base.specs.Names.{is_identifier};
ghost use Rattle.release_check.specs.Before.{before_held};
ghost use Rattle.release_check.specs.Faults.{names_in, limit_fault, identifier_fault};
ghost use Rattle.release_check.specs.Faults.{manifest_fault};
ghost use Rattle.release_check.specs.Judged.{JudgesUnread};

use crate::check_fault::{CheckFault, Limited};
use crate::duplicates::judge_duplicates;
use crate::history_judging::{judge_drops, judge_places, judge_stamp};
use catalogue::{Catalogue, MOST_NAMES, MOST_ZONES};
use release_manifest::{Manifest, ManifestZone};
use std::alloc::Global;
use td_base::{Bytes, NoMemory, is_identifier};
use zone_meaning::Zone;

/// Looks for the first fault of what a manifest says, on its own and against the history of a
/// catalogue. No file that it names is read before.
pub fn judge<'a>(
    alloc: Global,
    manifest: &'a Manifest,
    last: Option<&'a Catalogue<Zone>>,
) -> Result<(), CheckFault>
    ensures { JudgesUnread (manifest_fault (before_held (option_copied last.entry)) manifest.now)
        result }
{
    let zones = manifest.zones.as_slice();
    let names = names_in(alloc, zones)?;
    judge_limits(zones.len(), names.len())?;
    judge_stamp(manifest.stamp, last)?;
    judge_identifiers(zones)?;
    let kept = judge_duplicates(alloc, names.as_slice())?;
    judge_drops(alloc, &kept, last)?;
    judge_places(last)?;
    Ok(())
}

/// The names of the zones in the manifest's order, each identifier before its aliases.
fn names_in<'a>(alloc: Global, zones: &'a [ManifestZone]) -> Result<Vec<&'a [u8]>, NoMemory>
    ensures { IfOk result (λ names. map (λ n. n.now) names.items ≡ names_in zones.now) }
{
    let mut names = Vec::new(alloc);
    for zone in zones {
        add_names(&mut names, zone)?;
    }
    Ok(names)
}

/// Appends the names of one zone.
fn add_names<'a>(names: &mut Vec<&'a [u8]>, zone: &'a ManifestZone) -> Result<(), NoMemory>
    ensures { OnOk result (map (λ n. n.now) names.new.items
        ≡ map (λ n. n.now) names.old.items ++ zone.now.tzid ∷ zone.now.aliases) }
{
    names.push(zone.tzid.as_slice())?;
    for alias in zone.aliases.as_slice() {
        names.push(alias.as_slice())?;
    }
    Ok(())
}

/// Checks that there are not too many zones or names.
fn judge_limits(zones: usize, names: usize) -> Result<(), CheckFault>
    ensures { JudgesUnread (limit_fault zones names) result }
{
    if zones > MOST_ZONES {
        return Err(CheckFault::Limit(Limited::Zones, zones));
    }
    if names > MOST_NAMES {
        return Err(CheckFault::Limit(Limited::Names, names));
    }
    Ok(())
}

/// Looks for the first zone that has a name which is not an identifier.
fn judge_identifiers(zones: &[ManifestZone]) -> Result<(), CheckFault>
    ensures { JudgesUnread (identifier_fault 0 zones.now) result }
{
    for (number, zone) in zones.iter().enumerate() {
        if !has_identifiers(zone) {
            return Err(CheckFault::Identifier(number));
        }
    }
    Ok(())
}

/// Whether each name of a zone is an identifier.
fn has_identifiers(zone: &ManifestZone) -> bool
    ensures { result ≡ list_all is_identifier (zone.now.tzid ∷ zone.now.aliases) }
{
    is_identifier(zone.tzid.as_slice()) && are_identifiers(zone.aliases.as_slice())
}

/// Whether each of the names is an identifier.
fn are_identifiers(names: &[Bytes]) -> bool
    ensures { result ≡ list_all is_identifier names.now }
{
    names.iter().all(|name| is_identifier(name.as_slice()))
}
