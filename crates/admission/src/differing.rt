//! Compares a release with the one before it.
ghost use Rattle.std.specs.Prelude.{◌≡◌, IfOk, OnOk, map};
ghost use Rattle.std.specs.Cmp.Lexicographic.{pointwise};
ghost use Rattle.std.specs.Str.{bytes_eq};
ghost use Rattle.std.specs.Option.{option_map};
ghost use Rattle.catalogue.specs.Lookups.{named, zones_of};
ghost use Rattle.catalogue.specs.Releases.{content_as_is, content_data, release_data, same_content};
ghost use Rattle.zone_meaning.specs.ZoneHistories.{ForEachZoneHistory, zone_bytes};
ghost use Rattle.admission.specs.Differences as spec;

use crate::{Changed, Delta};
use catalogue::{Catalogue, Content, Release, borrow_rising};
use std::alloc::Global;
use td_base::{Bytes, Items, NoMemory};
use zone_meaning::{Zone, file, first_difference};

/// What a release changes compared with the last one of a history. Its zones and their aliases may
/// stand in any order.
pub fn delta_of(
    alloc: Global,
    last: &Catalogue<Zone>,
    next: &Release<Zone>,
) -> Result<Delta, NoMemory>
    ensures { IfOk result (λ delta. ForEachZoneHistory last.now (λ H.
        delta ≡ spec.difference H (release_data zone_bytes next.now))) }
{
    let zones = borrow_rising(alloc, next.zones.as_slice())?;
    let changed = changes_in(alloc, last, zones.as_slice())?;
    Ok(Delta { changed })
}

/// The changes of zones, in their order. Zones that stay the same are left out.
fn changes_in(
    alloc: Global,
    last: &Catalogue<Zone>,
    zones: &[&Content<Zone>],
) -> Result<Items<Changed>, NoMemory>
    ensures { IfOk result (λ changed. ForEachZoneHistory last.now (λ H.
        changed ≡ spec.content_changes (zones_of H)
        (map (λ z. content_data zone_bytes z.now) zones.now))) }
{
    let mut changed = Items::new(alloc);
    for at in 0..zones.len() {
        let change = change_of(alloc, last, zones[at])?;
        put_if_any(&mut changed, change)?;
    }
    Ok(changed)
}

/// Appends a change, if there is one.
fn put_if_any(changed: &mut Items<Changed>, change: Option<Changed>) -> Result<(), NoMemory>
    ensures { OnOk result (changed.new ≡ spec.with_last_if_any changed.old change) }
{
    match change {
        None => Ok(()),
        Some(change) => {
            changed.push(change)?;
            Ok(())
        }
    }
}

/// The change of a zone with the next release, if it changes.
fn change_of(
    alloc: Global,
    last: &Catalogue<Zone>,
    zone: &Content<Zone>,
) -> Result<Option<Changed>, NoMemory>
    ensures { IfOk result (λ change. ForEachZoneHistory last.now (λ H.
        change ≡ spec.change_if_any (zones_of H) (content_data zone_bytes zone.now))) }
{
    match zone_named(last, zone.tzid.as_slice()) {
        None => {
            let tzid = Bytes::from_slice(alloc, zone.tzid.as_slice())?;
            Ok(Some(Changed { tzid, first: None }))
        }
        Some(had) => {
            let change = change_from(alloc, had, zone)?;
            Ok(change)
        }
    }
}

/// The zone of the last release that has a name.
fn zone_named<'a>(last: &'a Catalogue<Zone>, name: &[u8]) -> Option<&'a Content<Zone>>
    ensures { ForEachZoneHistory last.now (λ H.
        option_map (λ c. content_as_is zone_bytes c.now) result ≡ named (zones_of H) name.now) }
{
    match last.find_name(name) {
        None => None,
        Some(at) => Some(&last.entry(at).content),
    }
}

/// The change of a zone, given the zone that its identifier named before. None if the two are
/// equal.
fn change_from(
    alloc: Global,
    had: &Content<Zone>,
    zone: &Content<Zone>,
) -> Result<Option<Changed>, NoMemory>
    ensures { IfOk result (λ change. change ≡ spec.change_from_one
        (content_as_is zone_bytes had.now) (content_data zone_bytes zone.now)) }
{
    let same = is_same(alloc, zone, had)?;
    if same {
        return Ok(None);
    }
    let tzid = Bytes::from_slice(alloc, zone.tzid.as_slice())?;
    let first = first_difference(&had.zone, &zone.zone);
    Ok(Some(Changed { tzid, first }))
}

/// Whether two zones are equal. The aliases of the first may stand in any order; those of the
/// second rise.
fn is_same(alloc: Global, zone: &Content<Zone>, had: &Content<Zone>) -> Result<bool, NoMemory>
    ensures { IfOk result (λ same. same ≡ same_content (content_data zone_bytes zone.now)
        (content_as_is zone_bytes had.now)) }
{
    let aliases = borrow_rising(alloc, zone.aliases.as_slice())?;
    Ok(
        is_text(&zone.tzid, &had.tzid)
            && are_texts(aliases.as_slice(), had.aliases.as_slice())
            && file(&zone.zone) == file(&had.zone),
    )
}

/// Whether borrowed texts equal these, one for one.
fn are_texts(borrowed: &[&Bytes], texts: &[Bytes]) -> bool
    ensures { result ≡ pointwise bytes_eq (map (λ a. a.now) borrowed.now) texts.now }
{
    if borrowed.len() != texts.len() {
        return false;
    }
    for at in 0..borrowed.len() {
        if !is_text(borrowed[at], &texts[at]) {
            return false;
        }
    }
    true
}

/// Whether two texts are equal.
fn is_text(a: &Bytes, b: &Bytes) -> bool
    ensures { result ≡ bytes_eq a.now b.now }
{
    a.as_slice() == b.as_slice()
}
