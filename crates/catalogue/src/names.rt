ghost use Rattle.std.specs.Prelude.{◌≡◌, ◌<◌, ◌∷◌, ◌++◌, ◌^◌, IfOk, OnOk, Some, length};
ghost use Rattle.std.specs.Prelude.{map, true};
ghost use Rattle.std.specs.List.{slice_get};
ghost use Rattle.std.specs.Cmp.Lexicographic.{slice_cmp};
ghost use Rattle.std.specs.Ordering.{nat_cmp};
ghost use Rattle.catalogue.specs.Order.{rising_by};
ghost use Rattle.catalogue.specs.HeldZones.{held_names, indexed_names, names_at, numbered};

use crate::Content;
use crate::entries::Held;
use crate::order::rising;
use std::alloc::Global;
use std::cmp::Ordering;
use std::sync::Arc;
use td_base::{Bytes, Items, NoMemory, Ranked};

/// A name of a zone, its identifier or an alias, with the zone's index, counted from 0.
#[derive(Drop)]
pub struct Name {
    pub text: Bytes,
    pub zone: u32,
}

impl Ranked for Name {
    ghost text = { λ n. n.text };

    fn text(&self) -> &[u8] {
        self.text.as_slice()
    }
}

/// The text of a name.
pub fn text_at(names: &[Name], i: usize) -> &[u8]
    requires { i < length names.now }
    ensures { slice_get (map (λ n. n.text) names.now) i ≡ Some result.now }
{
    names[i].text.as_slice()
}

/// Compares a name with a text, by bytes.
pub fn compare(name: &Name, text: &[u8]) -> Ordering
    ensures { result ≡ slice_cmp nat_cmp name.now.text text.now }
{
    name.text.as_slice().cmp(text)
}

/// Appends the names of the zone of this index.
fn put_names<Z>(
    alloc: Global,
    names: &mut Items<Name>,
    zone: u32,
    content: &Content<Z>,
) -> Result<(), NoMemory>
    ensures { OnOk result
        (names.new ≡ names.old ++ names_at zone (content.now.tzid ∷ content.now.aliases)) }
{
    let text = Bytes::from_slice(alloc, content.tzid.as_slice())?;
    names.push(Name { text, zone })?;
    for alias in content.aliases.as_slice() {
        let text = Bytes::from_slice(alloc, alias.as_slice())?;
        names.push(Name { text, zone })?;
    }
    Ok(())
}

/// Whether zones have the same names as others, one for one.
pub fn have_same_names<Z>(zones: &[Arc<Held<Z>>], others: &[Arc<Held<Z>>]) -> bool
    ensures { result ≡ true → map held_names zones.now ≡ map held_names others.now }
{
    if zones.len() != others.len() {
        return false;
    }
    for at in 0..zones.len() {
        if !has_same_names(&zones[at].entry.content, &others[at].entry.content) {
            return false;
        }
    }
    true
}

/// Whether two zones have the same identifier and the same aliases.
fn has_same_names<Z>(zone: &Content<Z>, other: &Content<Z>) -> bool
    ensures { result ≡ true
        → zone.now.tzid ∷ zone.now.aliases ≡ other.now.tzid ∷ other.now.aliases }
{
    zone.tzid == other.tzid && zone.aliases.as_slice() == other.aliases.as_slice()
}

/// The names of all zones, in rising order, for catalogues that share them.
pub fn share_names<Z>(alloc: Global, held: &[Arc<Held<Z>>]) -> Result<Arc<Items<Name>>, NoMemory>
    requires { length held.now < 2 ^ 32 }
    ensures { IfOk result (λ r. indexed_names r
        ≡ rising_by (λ n. n.text) (numbered 0 (map held_names held.now))) }
{
    let names = Arc::new(alloc, all_names(alloc, held)?)?;
    Ok(names)
}

/// The names of all zones, in rising order.
fn all_names<Z>(alloc: Global, held: &[Arc<Held<Z>>]) -> Result<Items<Name>, NoMemory>
    requires { length held.now < 2 ^ 32 }
    ensures { IfOk result (λ r.
        r ≡ rising_by (λ n. n.text) (numbered 0 (map held_names held.now))) }
{
    let mut names = Items::new(alloc);
    for zone in 0..held.len() {
        put_names(alloc, &mut names, zone as u32, &held[zone].entry.content)?;
    }
    let names = rising(names)?;
    Ok(names)
}
