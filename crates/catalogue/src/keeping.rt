ghost use Rattle.std.specs.Prelude.{◌≡◌, ◌<◌, ◌^◌, [], IfOk, IfSome, None, false, length, map, true};
ghost use Rattle.std.specs.List.{AllByRecursion, HoldsAt};
ghost use Rattle.catalogue.specs.Releases.{IsShort, content_as_is, same_content};
ghost use Rattle.catalogue.specs.Digests.{content_digest};
ghost use Rattle.catalogue.specs.Growing.{entry_next};
ghost use Rattle.catalogue.specs.HeldZones.{held_content, held_digest, held_entry, held_names};
ghost use Rattle.catalogue.specs.HeldZones.{indexed_names, numbered};
ghost use Rattle.catalogue.specs.Order.{rising_by};
ghost use Rattle.catalogue.specs.Histories.{has_content};
ghost use Rattle.catalogue.specs.Holdings.{ForEachHistory, release_held, release_of, zone_count};

use crate::entries::Held;
use crate::head::Head;
use crate::making::changed;
use crate::names::{Name, have_same_names, share_names};
use crate::{Catalogue, Content, ZoneData};
use std::alloc::Global;
use std::sync::Arc;
use td_base::{Items, NoMemory};

/// Whether two zones have the same identifier, the same aliases and the same file.
fn is_same<Z: ZoneData>(a: &Content<Z>, b: &Content<Z>) -> bool
    ensures { result ≡ same_content (content_as_is Z.bytes a.now) (content_as_is Z.bytes b.now) }
{
    a.tzid == b.tzid
        && a.aliases.as_slice() == b.aliases.as_slice()
        && a.zone.file_bytes() == b.zone.file_bytes()
}

impl<Z: ZoneData + Drop> Catalogue<Z> {
    /// The position of the zone of the last release with the same content. Mostly it is the one
    /// that the content has in the next release, so that one is looked at before all are searched.
    fn find_same(&self, content: &Content<Z>, position: usize) -> Option<usize>
        ensures within { IfSome result (λ i. i < zone_count self.now) }
        ensures same { IfSome result (λ i. HoldsAt
            (λ h. same_content (content_as_is Z.bytes content.now) (held_content Z.bytes h) ≡ true)
            self.now.held i) }
        ensures none { result ≡ None → ForEachHistory Z.bytes Z.sound self.now (λ H.
            has_content (content_as_is Z.bytes content.now) (release_held Z.bytes self.now)
            ≡ false) }
    {
        if self.is_same_at(content, position) {
            return Some(position);
        }
        self.search_same(content)
    }

    /// Whether the zone of the last release at a position has the same content.
    fn is_same_at(&self, content: &Content<Z>, at: usize) -> bool
        ensures within { result ≡ true → at < zone_count self.now }
        ensures same { result ≡ true → HoldsAt
            (λ h. same_content (content_as_is Z.bytes content.now) (held_content Z.bytes h) ≡ true)
            self.now.held at }
    {
        at < self.held.len() && is_same(content, &self.held.as_slice()[at].entry.content)
    }

    /// The position of the zone of the last release with the same content, by its name.
    fn search_same(&self, content: &Content<Z>) -> Option<usize>
        ensures within { IfSome result (λ i. i < zone_count self.now) }
        ensures same { IfSome result (λ i. HoldsAt
            (λ h. same_content (content_as_is Z.bytes content.now) (held_content Z.bytes h) ≡ true)
            self.now.held i) }
        ensures none { result ≡ None → ForEachHistory Z.bytes Z.sound self.now (λ H.
            has_content (content_as_is Z.bytes content.now) (release_held Z.bytes self.now)
            ≡ false) }
    {
        let at = self.find_name(content.tzid.as_slice())?;
        if is_same(content, &self.held.as_slice()[at].entry.content) {
            Some(at)
        } else {
            None
        }
    }

    /// The entry of a zone of the next release, which has this place and this head, where the zone
    /// stands at this position. It is shared with the last release if the content is the same.
    fn held_next(
        &self,
        alloc: Global,
        content: Content<Z>,
        position: usize,
        place: u32,
        head: &Head,
    ) -> Result<Arc<Held<Z>>, NoMemory>
        requires { IsShort (content_as_is Z.bytes content) }
        ensures entry { IfOk result (λ h. ForEachHistory Z.bytes Z.sound self.now (λ H.
            held_entry Z.bytes h
            ≡ entry_next H (release_held Z.bytes self.now) (release_of head.now []) place
            (content_as_is Z.bytes content))) }
        ensures digest { IfOk result (λ h. ForEachHistory Z.bytes Z.sound self.now (λ H.
            held_digest h ≡ content_digest (content_as_is Z.bytes content))) }
    {
        match self.find_same(&content, position) {
            Some(at) => {
                let held = Arc::try_clone(&self.held.as_slice()[at])?;
                Ok(held)
            }
            None => changed(alloc, content, place, head),
        }
    }

    /// The entries of all zones of the next release, which has this place and this head.
    pub fn all_next(
        &self,
        alloc: Global,
        contents: Items<Content<Z>>,
        place: u32,
        head: &Head,
    ) -> Result<Items<Arc<Held<Z>>>, NoMemory>
        requires { AllByRecursion (λ c. IsShort (content_as_is Z.bytes c)) contents }
        ensures count { IfOk result (λ r. length r ≡ length contents) }
        ensures entries { IfOk result (λ r. ForEachHistory Z.bytes Z.sound self.now (λ H.
            map (held_entry Z.bytes) r
            ≡ map (entry_next H (release_held Z.bytes self.now) (release_of head.now []) place)
            (map (content_as_is Z.bytes) contents))) }
        ensures digests { IfOk result (λ r. ForEachHistory Z.bytes Z.sound self.now (λ H.
            map held_digest r ≡ map content_digest (map (content_as_is Z.bytes) contents))) }
    {
        let mut held = Vec::with_capacity(alloc, contents.len())?;
        for content in contents.into_vec() {
            let position = held.len();
            held.push(self.held_next(alloc, content, position, place, head)?)?;
        }
        Ok(Items::from(held))
    }

    /// The names of the zones of the next release, in rising order. They are shared with the last
    /// release if they are the same.
    pub fn names_next(
        &self,
        alloc: Global,
        held: &[Arc<Held<Z>>],
    ) -> Result<Arc<Items<Name>>, NoMemory>
        requires { length held.now < 2 ^ 32 }
        ensures { IfOk result (λ r. indexed_names r
            ≡ rising_by (λ n. n.text) (numbered 0 (map held_names held.now))) }
    {
        if !have_same_names(self.held.as_slice(), held) {
            return share_names(alloc, held);
        }
        let names = Arc::try_clone(&self.names)?;
        Ok(names)
    }
}
