ghost use Rattle.std.specs.Prelude.{◌≡◌, ◌<◌, ◌≤◌, ◌%◌, ◌==◌, if◌then◌else◌, map, IfOk};
ghost use Rattle.made_load.specs.Releases as releases;

use crate::hours::{hour_file, two_digits};
use release_manifest::ManifestZone;
use std::alloc::Global;
use td_base::{Bytes, Items, MemoryStore, NoMemory};

/// The number of zones of each release.
pub const ZONES: u32 = 50;

/// The identifier of a zone.
#[tactic(auto, unfolding(crate::specs::Releases::tzid_of))]
pub fn tzid_of(alloc: Global, zone: u32) -> Result<Bytes, NoMemory>
    requires { zone < 100 }
    ensures { IfOk result (λ tzid. tzid ≡ releases.tzid_of zone) }
{
    let mut tzid = Bytes::from_slice(alloc, b"Load/Z")?;
    tzid.append(&two_digits(zone))?;
    Ok(tzid)
}

/// The zones as entries of a manifest.
#[tactic(auto, unfolding(crate::specs::Releases::zone_numbers))]
pub fn manifest_zones(alloc: Global) -> Result<Items<ManifestZone>, NoMemory>
    ensures { IfOk result (λ zones. zones ≡ map releases.made_zone releases.zone_numbers) }
{
    let mut zones = Items::new(alloc);
    for zone in 0..ZONES {
        zones.push(made_zone(alloc, zone)?)?;
    }
    Ok(zones)
}

/// A zone as an entry of a manifest.
fn made_zone(alloc: Global, zone: u32) -> Result<ManifestZone, NoMemory>
    requires { zone < 100 }
    ensures { IfOk result (λ made. made ≡ releases.made_zone zone) }
{
    let tzid = tzid_of(alloc, zone)?;
    let file = tzid_of(alloc, zone)?;
    Ok(ManifestZone {
        tzid,
        file,
        aliases: Items::new(alloc),
    })
}

/// A store of the files of a release.
pub fn made_store(alloc: Global, release: u32) -> Result<MemoryStore, NoMemory>
    requires { release ≤ 1_000 }
    ensures { IfOk result (releases.HasMadeFiles release) }
{
    let mut store = MemoryStore::new(alloc);
    let mut zone = ZONES;
    'zones: while 0 < zone {
        zone -= 1;
        let path = tzid_of(alloc, zone)?;
        store.put(path, hour_file(alloc, hour_of(release, zone))?)?;
    }
    Ok(store)
}

/// The hours east of UTC at which a zone is in a release.
fn hour_of(release: u32, zone: u32) -> u32
    requires release { release ≤ 1_000 }
    requires zone { zone < 50 }
    ensures hour { result ≡ releases.hour_of release zone }
    ensures day { result < 24 }
{
    (zone + moves(release, zone)) % 24
}

/// In how many of the releases after the first, up to this one, a zone moved.
#[tactic(auto, unfolding(crate::specs::Releases::moves))]
fn moves(release: u32, zone: u32) -> u32
    requires { release ≤ 1_000 }
    ensures moves { result ≡ releases.moves release zone }
    ensures few { result ≤ 1_000 }
{
    let mut moves = 0;
    for place in 2..release + 1 {
        moves += moves_in(place, zone);
    }
    moves
}

/// How often a zone moves in a release: once or not at all.
fn moves_in(release: u32, zone: u32) -> u32
    ensures { result ≡ if release % 50 == zone then 1 else 0 }
{
    if release % ZONES == zone { 1 } else { 0 }
}
