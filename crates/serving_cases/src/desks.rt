//! A desk over a history of one release.
ghost use Rattle.std.specs.Prelude.{IfOk, [], ◌∷◌};
ghost use Rattle.catalogue.specs.Holdings.{StandsFor, release_held};
ghost use Rattle.zone_meaning.specs.Sound.{IsSound};

use catalogue::{Catalogue, Release};
use publication::{Desk, Publisher, make};
use std::alloc::Global;
use std::sync::Wait;
use td_base::{Bytes, Items, NoMemory, is_label};
use td_civil::{LO, Moment};
use zone_meaning::Zone;

/// A catalogue of one release without zones.
fn no_zones(alloc: Global) -> Result<Catalogue<Zone>, NoMemory>
    ensures { IfOk result (λ c. StandsFor (λ z. z) IsSound c (release_held (λ z. z) c ∷ [])) }
{
    let publisher = Bytes::from_slice(alloc, b"Test")?;
    let version = Bytes::from_slice(alloc, b"2025a")?;
    if !is_label(publisher.as_slice()) {
        return Err(NoMemory);
    }
    if !is_label(version.as_slice()) {
        return Err(NoMemory);
    }
    Catalogue::first(
        alloc,
        Release {
            stamp: Moment { seconds: LO },
            publisher,
            version,
            zones: Items::new(alloc),
            leaps: None,
        },
    )
}

/// A publisher of that catalogue, and a desk.
pub fn one_desk<R: Wait>(
    rt: &R,
    alloc: Global,
) -> Result<(Publisher<Catalogue<Zone>>, Desk<Catalogue<Zone>>), NoMemory> {
    let catalogue = no_zones(alloc)?;
    let (publisher, desks) = make(rt, alloc, catalogue, 1)?;
    let mut desks = desks;
    let desk = desks.pop().unwrap();
    Ok((publisher, desk))
}
