ghost use Rattle.std.specs.Prelude.{◌≡◌, ◌≤◌, IfOk};
ghost use Rattle.made_load.specs.Releases as releases;

use crate::zones::{made_store, manifest_zones};
use release_manifest::Manifest;
use std::alloc::Global;
use td_base::{Bytes, MemoryStore, NoMemory, put_decimal};
use td_civil::Moment;

/// The stamp before that of the first release, in seconds since 1970-01-01T00:00:00Z.
const BEGIN: i64 = 1_577_836_800;

/// The seconds between two releases.
const DAY: i64 = 86_400;

/// The release `r` of a load of `n` releases: its manifest, and a store of its files.
pub fn release(alloc: Global, n: u32, r: u32) -> Result<(Manifest, MemoryStore), NoMemory>
    requires some { 1 ≤ r }
    requires within { r ≤ n }
    requires most { n ≤ 1_000 }
    ensures manifest { IfOk result (λ p. p.0 ≡ releases.made_manifest r) }
    ensures files { IfOk result (λ p. releases.HasMadeFiles r p.1) }
{
    let manifest = made_manifest(alloc, r)?;
    let store = made_store(alloc, r)?;
    Ok((manifest, store))
}

/// The manifest of a release.
fn made_manifest(alloc: Global, release: u32) -> Result<Manifest, NoMemory>
    requires { release ≤ 1_000 }
    ensures { IfOk result (λ manifest. manifest ≡ releases.made_manifest release) }
{
    let publisher = Bytes::from_slice(alloc, b"Load")?;
    let mut version = Bytes::new(alloc);
    put_decimal(&mut version, release as u64)?;
    let zones = manifest_zones(alloc)?;
    Ok(Manifest {
        publisher,
        version,
        stamp: stamp_of(release),
        zones,
        leaps: None,
    })
}

/// The stamp of a release.
fn stamp_of(release: u32) -> Moment
    requires { release ≤ 1_000 }
    ensures { result ≡ (releases.made_manifest release).stamp }
{
    Moment {
        seconds: BEGIN + DAY * release as i64,
    }
}
