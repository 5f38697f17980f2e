ghost use Rattle.std.specs.Prelude.{◌≡◌, ◌<◌, ◌≤◌, ◌+◌, ◌-◌, ◌^◌, ◌∷◌, ◌++◌, [], List, IfOk, Some};
ghost use Rattle.std.specs.Prelude.{drop, length, map};
ghost use Rattle.std.specs.List.{AllByRecursion};
ghost use Rattle.catalogue.specs.Releases.{ContentData, HasLengths, IsShort, content_as_is};
ghost use Rattle.catalogue.specs.Releases.{release_data};
ghost use Rattle.catalogue.specs.Digests.{content_digest, linked, token_text};
ghost use Rattle.catalogue.specs.Histories.{Fits, FitsAfter, entry_from, retired};
ghost use Rattle.catalogue.specs.HeldZones.{held_digest, held_entry, held_names, indexed_names};
ghost use Rattle.catalogue.specs.HeldZones.{numbered};
ghost use Rattle.catalogue.specs.Order.{rising_by};
ghost use Rattle.catalogue.specs.Holdings.{ForEachHistory, StandsFor, place_count, release_held};
ghost use Rattle.catalogue.specs.Holdings.{release_of};

use crate::chain::link;
use crate::changes::index_changes;
use crate::digest::{content_digest, tag, token};
use crate::entries::Held;
use crate::head::Head;
use crate::holding::Catalogue;
use crate::limits::KEPT_TOKENS;
use crate::names::{Name, share_names};
use crate::order::in_order;
use crate::{Content, Entry, Release, ZoneData};
use std::alloc::Global;
use std::sync::Arc;
use td_base::{Bytes, Items, NoMemory, Token};

/// The entry of a zone that changed at this place, in the release of this head.
pub fn changed<Z: ZoneData + Drop>(
    alloc: Global,
    content: Content<Z>,
    place: u32,
    head: &Head,
) -> Result<Arc<Held<Z>>, NoMemory>
    requires { IsShort (content_as_is Z.bytes content) }
    ensures entry { IfOk result (λ h. held_entry Z.bytes h
        ≡ entry_from (release_of head.now []) place (content_as_is Z.bytes content)) }
    ensures digest { IfOk result (λ h.
        held_digest h ≡ content_digest (content_as_is Z.bytes content)) }
{
    let digest = content_digest(&content);
    let entry = Entry {
        content,
        tag: tag(&digest),
        changed: place,
        stamp: head.stamp,
        publisher: Bytes::from_slice(alloc, head.publisher.as_slice())?,
        version: Bytes::from_slice(alloc, head.version.as_slice())?,
    };
    let held = Arc::new(alloc, Held { entry, digest })?;
    Ok(held)
}

/// The entries of zones that all changed at this place, in the release of this head.
fn all_changed<Z: ZoneData + Drop>(
    alloc: Global,
    contents: Items<Content<Z>>,
    place: u32,
    head: &Head,
) -> Result<Items<Arc<Held<Z>>>, NoMemory>
    requires { AllByRecursion (λ c. IsShort (content_as_is Z.bytes c)) contents }
    ensures entries { IfOk result (λ r. map (held_entry Z.bytes) r
        ≡ map (entry_from (release_of head.now []) place)
        (map (content_as_is Z.bytes) contents)) }
    ensures digests { IfOk result (λ r. map held_digest r
        ≡ map content_digest (map (content_as_is Z.bytes) contents)) }
{
    let mut held = Vec::with_capacity(alloc, contents.len())?;
    for content in contents.into_vec() {
        held.push(changed(alloc, content, place, head)?)?;
    }
    Ok(Items::from(held))
}

/// Copies the tokens, without the first if [`KEPT_TOKENS`] are already kept.
fn copy_last(alloc: Global, tokens: &Items<Token>) -> Result<Items<Token>, NoMemory>
    ensures { IfOk result (λ r. r ≡ drop (retired (length tokens.now + 1)) tokens.now) }
{
    let first = tokens.len().saturating_sub(KEPT_TOKENS as usize - 1);
    copy_tokens(alloc, &tokens.as_slice()[first..])
}

/// Copies the tokens.
fn copy_tokens(alloc: Global, tokens: &[Token]) -> Result<Items<Token>, NoMemory>
    ensures { IfOk result (λ r. r ≡ tokens.now) }
{
    let mut copied = Items::new(alloc);
    for token in tokens {
        copied.push(token.copy())?;
    }
    Ok(copied)
}

/// Splits a release into its head and its zones.
fn parted<Z>(release: Release<Z>) -> (Head, Items<Content<Z>>)
    ensures head { result.0 ≡ record {
      stamp = release.stamp;
      publisher = release.publisher;
      version = release.version;
      leaps = release.leaps;
    } }
    ensures zones { result.1 ≡ release.zones }
{
    let Release {
        stamp,
        publisher,
        version,
        zones,
        leaps,
    } = release;
    let head = Head {
        stamp,
        publisher,
        version,
        leaps,
    };
    (head, zones)
}

/// The catalogue of a place, from its head and zones, their names, the chain value of the place
/// before and the earlier tokens that stay.
fn closed<Z: Drop>(
    alloc: Global,
    place: u32,
    head: Head,
    held: Items<Arc<Held<Z>>>,
    names: Arc<Items<Name>>,
    before: &[u8; 32],
    tokens: Items<Token>,
) -> Result<Catalogue<Z>, NoMemory>
    requires names { indexed_names names
        ≡ rising_by (λ n. n.text) (numbered 0 (map held_names held)) }
    requires lengths { HasLengths (release_of head []) }
    requires zones { length held < 2 ^ 32 }
    requires some { 1 ≤ place }
    requires kept { length tokens + 1 ≡ place - retired place }
    ensures held { IfOk result (λ c. (c.head ≡ head) × (c.held ≡ held)) }
    ensures count { IfOk result (λ c. c.count ≡ place) }
    ensures chain { IfOk result (λ c. (contents : List ContentData) →
        map held_digest held ≡ map content_digest contents →
        c.chain ≡ linked before.now (release_of head contents)) }
    ensures tokens { IfOk result (λ c. c.tokens ≡ tokens ++ token_text place c.chain ∷ []) }
{
    let chain = link(before, &head, held.as_slice());
    let index = index_changes(alloc, held.as_slice())?;
    let mut tokens = tokens;
    tokens.push(token(place, &chain))?;
    Ok(Catalogue {
        head,
        held,
        chain,
        count: place,
        tokens,
        names,
        index,
    })
}

impl<Z: ZoneData + Drop> Catalogue<Z> {
    /// The catalogue of a history of one release. The zones, and the aliases of each, may be in any
    /// order.
    pub fn first(alloc: Global, release: Release<Z>) -> Result<Catalogue<Z>, NoMemory>
        requires sound { Z.sound (release_data Z.bytes release) }
        requires fits { Fits [] (release_data Z.bytes release) }
        ensures { IfOk result (λ c.
            StandsFor Z.bytes Z.sound c (release_data Z.bytes release ∷ [])) }
    {
        let (head, zones) = parted(release);
        let contents = in_order(alloc, zones)?;
        let held = all_changed(alloc, contents, 1, &head)?;
        let names = share_names(alloc, held.as_slice())?;
        let catalogue = closed(alloc, 1, head, held, names, &[0; 32], Items::new(alloc))?;
        Ok(catalogue)
    }

    /// The catalogue of the same history with one more release. The zones, and the aliases of each,
    /// may be in any order. A zone with unchanged content keeps its entry.
    pub fn next(&self, alloc: Global, release: Release<Z>) -> Result<Catalogue<Z>, NoMemory>
        requires sound { Z.sound (release_data Z.bytes release) }
        requires fits { FitsAfter (Some (release_held Z.bytes self.now)) (place_count self.now)
            (release_data Z.bytes release) }
        ensures { IfOk result (λ c. ForEachHistory Z.bytes Z.sound self.now (λ H.
            StandsFor Z.bytes Z.sound c (H ++ release_data Z.bytes release ∷ []))) }
    {
        let (head, zones) = parted(release);
        let contents = in_order(alloc, zones)?;
        let place = self.count + 1;
        let held = self.all_next(alloc, contents, place, &head)?;
        let names = self.names_next(alloc, held.as_slice())?;
        let tokens = copy_last(alloc, &self.tokens)?;
        let catalogue = closed(alloc, place, head, held, names, &self.chain, tokens)?;
        Ok(catalogue)
    }
}
