ghost use Rattle.std.specs.Prelude.{◌≡◌, ◌<◌, ◌∷◌, ◌++◌, ◌^◌, ℕ, List, IfOk, IfSome, Some, decimal};
ghost use Rattle.std.specs.Prelude.{map};
ghost use Rattle.std.specs.Prelude.{nat_eq};
ghost use Rattle.std.specs.List.{position_or_len, slice_get};
ghost use Rattle.catalogue.specs.Histories.{meta};
ghost use Rattle.catalogue.specs.Lookups.{delta, place_named, place_of, places_changed};

use crate::limits::KEPT_TOKENS;
use crate::names::compare;
use crate::{Catalogue, ZoneData};
use std::alloc::Global;
use td_base::{Items, NoMemory, read_decimal};

/// The position of the first dash, or the length if there is none.
fn dash_at(text: &[u8]) -> usize
    ensures { result ≡ position_or_len (nat_eq 45) text.now }
{
    for at in 0..text.len() {
        if text[at] == b'-' {
            return at;
        }
    }
    text.len()
}

/// The number before the first dash, which is the place in a token.
fn first_number(text: &[u8]) -> Option<u32>
    ensures { (n : ℕ) (rest : List ℕ) →
        n < 2 ^ 32 → text.now ≡ decimal n ++ 45 ∷ rest → result ≡ Some n }
{
    let number = read_decimal(&text[..dash_at(text)])?;
    if number <= u32::MAX as u64 {
        Some(number as u32)
    } else {
        None
    }
}

impl<Z: ZoneData> Catalogue<Z> {
    ghost use Rattle.catalogue.specs.Holdings.{ForEachHistory, zone_count};

    /// The position of the entry that has this name as its identifier or as an alias.
    pub fn find_name(&self, name: &[u8]) -> Option<usize>
        ensures within { IfSome result (λ i. i < zone_count self.now) }
        ensures place { ForEachHistory Z.bytes Z.sound self.now (λ H.
            result ≡ place_named H name.now) }
    {
        let names = self.names.as_slice();
        match names.binary_search_by(|held| compare(held, name)) {
            Ok(found) => Some(names[found].zone as usize),
            Err(_) => None,
        }
    }

    /// The place whose token is the text, among the last [`KEPT_TOKENS`] places, counted from 1. A
    /// token begins with its place, so only one token is compared.
    pub fn place_of(&self, text: &[u8]) -> Option<u32>
        ensures { ForEachHistory Z.bytes Z.sound self.now (λ H. result ≡ place_of H text.now) }
    {
        let place = first_number(text)?;
        let retired = self.retired();
        if place <= retired || self.count < place {
            return None;
        }
        if self.tokens.as_slice()[(place - 1 - retired) as usize].as_slice() == text {
            Some(place)
        } else {
            None
        }
    }

    /// The positions, in rising order, of the entries whose content last changed after a place.
    /// After a binary search, the cost depends only on the number of results.
    pub fn changed_since(&self, alloc: Global, n: u32) -> Result<Items<usize>, NoMemory>
        ensures positions { IfOk result (λ r. ForEachHistory Z.bytes Z.sound self.now (λ H.
            r ≡ places_changed H n)) }
        ensures entries { IfOk result (λ r. ForEachHistory Z.bytes Z.sound self.now (λ H.
            map (slice_get (meta H)) r ≡ map Some (delta H n))) }
    {
        match self.index.positions_after(alloc, n) {
            Ok(changed) => Ok(Items::from(changed)),
            Err(_) => Err(NoMemory),
        }
    }
}
