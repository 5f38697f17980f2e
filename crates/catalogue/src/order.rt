ghost use Rattle.std.specs.Prelude.{◌≡◌, ℕ, List, IfOk, map};
ghost use Rattle.std.specs.Cmp.Lexicographic.{slice_cmp};
ghost use Rattle.std.specs.Ordering.{nat_cmp};
ghost use Rattle.catalogue.specs.Order.{rising_by};
ghost use Rattle.catalogue.specs.Releases.{content_as_is, content_data};

use crate::{Content, ZoneData};
use std::alloc::Global;
use std::cmp::Ordering;
use td_base::{Items, NoMemory, Ranked};

impl<Z> Ranked for Content<Z> {
    ghost text = { λ c. c.tzid };

    fn text(&self) -> &[u8] {
        self.tzid.as_slice()
    }
}

/// Compares two items by their texts.
fn compare<T: Ranked>(a: &T, b: &T) -> Ordering
    ensures { result ≡ slice_cmp nat_cmp (T.text a.now) (T.text b.now) }
{
    a.text().cmp(b.text())
}

/// Sorts the items in rising order. Items with the same text keep their order.
pub fn rising<T: Ranked + Drop>(items: Items<T>) -> Result<Items<T>, NoMemory>
    ensures { IfOk result (λ sorted. sorted ≡ rising_by T.text items) }
{
    let mut sorted = items.into_vec();
    sorted.sort_by(|a, b| compare(a, b))?;
    Ok(Items::from(sorted))
}

/// References to the items, in their order.
fn borrow_all<T>(alloc: Global, items: &[T]) -> Result<Vec<&T>, NoMemory>
    ensures { IfOk result (λ borrowed. map (λ x. x.now) borrowed.items ≡ items.now) }
{
    let mut borrowed = Vec::with_capacity(alloc, items.len())?;
    for item in items {
        borrowed.push(item)?;
    }
    Ok(borrowed)
}

/// References to the items in rising order of their texts. Items with the same text keep their
/// order.
pub fn borrow_rising<T: Ranked>(alloc: Global, items: &[T]) -> Result<Vec<&T>, NoMemory>
    ensures { IfOk result (λ sorted. map (λ x. x.now) sorted.items ≡ rising_by T.text items.now) }
{
    let mut sorted = borrow_all(alloc, items)?;
    sorted.sort_by(|a, b| compare(*a, *b))?;
    Ok(sorted)
}

/// Sorts the aliases of a zone in rising order.
fn with_rising_aliases<Z: ZoneData + Drop>(content: Content<Z>) -> Result<Content<Z>, NoMemory>
    ensures { IfOk result (λ c. (c.tzid ≡ content.tzid)
        × (content_as_is Z.bytes c ≡ content_data Z.bytes content)) }
{
    let Content {
        tzid,
        aliases,
        zone,
    } = content;
    let aliases = rising(aliases)?;
    Ok(Content {
        tzid,
        aliases,
        zone,
    })
}

/// Sorts the aliases of each zone in rising order.
fn with_all_aliases_rising<Z: ZoneData + Drop>(
    alloc: Global,
    zones: Items<Content<Z>>,
) -> Result<Items<Content<Z>>, NoMemory>
    ensures { IfOk result (λ r.
        map (content_as_is Z.bytes) r ≡ map (content_data Z.bytes) zones) }
{
    let mut contents = Vec::with_capacity(alloc, zones.len())?;
    for content in zones.into_vec() {
        contents.push(with_rising_aliases(content)?)?;
    }
    Ok(Items::from(contents))
}

/// Sorts the zones, and the aliases of each, in rising order.
pub fn in_order<Z: ZoneData + Drop>(
    alloc: Global,
    zones: Items<Content<Z>>,
) -> Result<Items<Content<Z>>, NoMemory>
    ensures { IfOk result (λ r. map (content_as_is Z.bytes) r
        ≡ rising_by (λ c. c.tzid) (map (content_data Z.bytes) zones)) }
{
    let contents = rising(with_all_aliases_rising(alloc, zones)?)?;
    Ok(contents)
}
