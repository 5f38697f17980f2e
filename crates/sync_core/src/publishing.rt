ghost use Rattle.std.specs.Prelude.{◌≡◌, map, IfOk, option_copied};
ghost use Rattle.sync_core.specs.Keeping.{later_of};
ghost use Rattle.sync_core.specs.Published.{manifest_with, manifest_zone};
ghost use Rattle.sync_core.specs.Published.{newest as newest_of};

use json_forms::ListZone;
use release_manifest::{Manifest, ManifestZone};
use std::alloc::Global;
use td_base::{Bytes, Items, NoMemory};
use td_civil::{LO, Moment};

/// The manifest of a release with these zones.
pub fn manifest(alloc: Global, zones: &[ListZone]) -> Result<Manifest, NoMemory>
    ensures { IfOk result (λ m. m ≡ manifest_with (newest_of zones.now) zones.now) }
{
    let stated = manifest_zones(alloc, zones)?;
    match newest(zones) {
        Some(zone) => Ok(Manifest {
            publisher: zone.publisher.clone_in(alloc)?,
            version: zone.version.clone_in(alloc)?,
            stamp: zone.stamp,
            zones: stated,
            leaps: None,
        }),
        None => Ok(Manifest {
            publisher: Bytes::from_slice(alloc, b"-")?,
            version: Bytes::from_slice(alloc, b"-")?,
            stamp: Moment { seconds: LO },
            zones: stated,
            leaps: None,
        }),
    }
}

/// The first zone with the latest stamp.
fn newest(zones: &[ListZone]) -> Option<&ListZone>
    ensures { option_copied result ≡ newest_of zones.now }
{
    let mut newest: Option<&ListZone> = None;
    for zone in zones {
        newest = Some(later(newest, zone));
    }
    newest
}

/// The second zone if its stamp is later than that of the first, else the first.
fn later<'a>(first: Option<&'a ListZone>, second: &'a ListZone) -> &'a ListZone
    ensures { result.now ≡ later_of (option_copied first.entry) second.now }
{
    match first {
        Some(first) if second.stamp.seconds <= first.stamp.seconds => first,
        _ => second,
    }
}

fn manifest_zones(alloc: Global, zones: &[ListZone]) -> Result<Items<ManifestZone>, NoMemory>
    ensures { IfOk result (λ stated. stated ≡ map manifest_zone zones.now) }
{
    let mut stated = Items::new(alloc);
    for zone in zones {
        stated.push(ManifestZone {
            tzid: zone.tzid.clone_in(alloc)?,
            file: zone.tzid.clone_in(alloc)?,
            aliases: copies(alloc, zone.aliases.as_slice())?,
        })?;
    }
    Ok(stated)
}

/// Copies of texts.
fn copies(alloc: Global, texts: &[Bytes]) -> Result<Items<Bytes>, NoMemory>
    ensures { IfOk result (λ copies. copies ≡ texts.now) }
{
    let mut copies = Items::new(alloc);
    for text in texts {
        copies.push(text.clone_in(alloc)?)?;
    }
    Ok(copies)
}
