ghost use Rattle.std.specs.Prelude.{Some, IfOk, codes};
ghost use Rattle.json.specs.Find.{get};
ghost use Rattle.json.specs.Value.{value_view, items_view};
ghost use Rattle.release_manifest.specs.declared.manifest_fault.Path.TheVariants as path;
ghost use Rattle.release_manifest.specs.Checks.{text_checks, alias_checks, zone_checks};
ghost use Rattle.release_manifest.specs.Checks.{zones_checks, each_checks};
ghost use Rattle.release_manifest.specs.Meaning.{AllAre, IsText, AreAliases, IsZone, AreZonesOf};
ghost use Rattle.release_manifest.specs.Reading.{JudgesChecks};

use crate::members::{check_object, items, read_file_name, read_text};
use crate::{ManifestFault, ManifestZone, Path};
use json::Value;
use std::alloc::Global;
use td_base::{Bytes, Items};

/// Reads the list of zones.
#[tactic(auto, unfolding(crate::specs::Checks::zones_checks))]
pub(crate) fn read_zones(
    alloc: Global,
    manifest: &Value<'_>,
) -> Result<Items<ManifestZone>, ManifestFault>
    ensures found { IfOk result
        (λ zs. AreZonesOf (get (codes "zones") (value_view manifest.now)) zs) }
    ensures judged { JudgesChecks result
        (zones_checks (get (codes "zones") (value_view manifest.now))) }
{
    let Some(member) = manifest.get("zones") else {
        return Err(ManifestFault::Field(Path::Zones));
    };
    match items(member) {
        Some(list) => read_each_zone(alloc, list),
        None => Err(ManifestFault::Field(Path::Zones)),
    }
}

/// Reads each zone of the list.
fn read_each_zone(alloc: Global, list: &[Value<'_>]) -> Result<Items<ManifestZone>, ManifestFault>
    ensures found { IfOk result (λ zs. AllAre IsZone (items_view list.now) zs) }
    ensures judged { JudgesChecks result (each_checks zone_checks 0 (items_view list.now)) }
{
    let mut zones = Items::new(alloc);
    for (number, value) in list.iter().enumerate() {
        zones.push(read_zone(alloc, value, number)?)?;
    }
    Ok(zones)
}

/// Reads a zone, with its index in the list.
#[tactic(auto, unfolding(crate::specs::Checks::zone_checks))]
fn read_zone(alloc: Global, zone: &Value<'_>, number: usize) -> Result<ManifestZone, ManifestFault>
    ensures found { IfOk result (λ z. IsZone (value_view zone.now) z) }
    ensures judged { JudgesChecks result (zone_checks number (value_view zone.now)) }
{
    check_object(zone, Path::Zone(number))?;
    let tzid = read_text(alloc, zone, "tzid", Path::Tzid(number))?;
    let file = read_file_name(alloc, zone, Path::File(number))?;
    let aliases = read_aliases(alloc, zone, number)?;
    Ok(ManifestZone {
        tzid,
        file,
        aliases,
    })
}

/// Reads the aliases of a zone; an empty list if the member is left out.
#[tactic(auto, unfolding(crate::specs::Checks::alias_checks))]
fn read_aliases(
    alloc: Global,
    zone: &Value<'_>,
    number: usize,
) -> Result<Items<Bytes>, ManifestFault>
    ensures found { IfOk result
        (λ texts. AreAliases (get (codes "aliases") (value_view zone.now)) texts) }
    ensures judged { JudgesChecks result
        (alias_checks number (get (codes "aliases") (value_view zone.now))) }
{
    let Some(member) = zone.get("aliases") else {
        return Ok(Items::new(alloc));
    };
    match items(member) {
        Some(list) => read_each_alias(alloc, list, number),
        None => Err(ManifestFault::Field(Path::Aliases(number))),
    }
}

/// Reads each alias of the list, of the zone with this index.
fn read_each_alias(
    alloc: Global,
    list: &[Value<'_>],
    zone: usize,
) -> Result<Items<Bytes>, ManifestFault>
    ensures found { IfOk result (λ texts. AllAre IsText (items_view list.now) texts) }
    ensures judged { JudgesChecks result (each_checks
        (λ n alias. text_checks (path.Alias zone n) (Some alias)) 0 (items_view list.now)) }
{
    let mut aliases = Items::new(alloc);
    for (number, value) in list.iter().enumerate() {
        aliases.push(read_alias(alloc, value, Path::Alias(zone, number))?)?;
    }
    Ok(aliases)
}

/// Reads an alias.
#[tactic(auto, unfolding(crate::specs::Checks::text_checks))]
fn read_alias(alloc: Global, value: &Value<'_>, path: Path) -> Result<Bytes, ManifestFault>
    ensures found { IfOk result (λ text. IsText (value_view value.now) text) }
    ensures judged { JudgesChecks result (text_checks path (Some (value_view value.now))) }
{
    match value.as_str() {
        Some(text) => Ok(Bytes::from_slice(alloc, text.as_bytes())?),
        None => Err(ManifestFault::Field(path)),
    }
}
