ghost use Rattle.std.specs.Prelude.{◌≡◌, ◌+◌, ◌-◌, ◌≤◌, ◌<◌, Some, length, map, option_copied};
ghost use Rattle.std.specs.Option.{IsSomeAnd};
ghost use Rattle.std.specs.List.{slice_get};
ghost use Rattle.td_base.specs.Names.{IsPlain};
ghost use Rattle.catalogue.specs.HeldZones.{entry_data, held_change, held_names, indexed_names};
ghost use Rattle.catalogue.specs.HeldZones.{numbered};
ghost use Rattle.catalogue.specs.Histories.{last_release, meta, retired, token_of};
ghost use Rattle.catalogue.specs.Order.{rising_by};
ghost use Rattle.catalogue.specs.Plain.{IsPlainEntry};

use crate::entries::Held;
use crate::head::Head;
use crate::limits::KEPT_TOKENS;
use crate::names::{Name, text_at};
use crate::{Entry, Leaps, ZoneData};
use change_index::ChangeIndex;
use std::sync::Arc;
use td_base::{Items, Token};
use td_civil::Moment;

/// The last release of a history, with the tokens of its last [`KEPT_TOKENS`] places.
#[derive(Drop)]
pub struct Catalogue<Z> {
    pub(crate) head: Head,
    /// The entries in rising order of their identifiers.
    pub(crate) held: Items<Arc<Held<Z>>>,
    pub(crate) chain: [u8; 32],
    pub(crate) count: u32,
    pub(crate) tokens: Items<Token>,
    /// The names of these zones, in rising order. Catalogues of one history share them until they
    /// change.
    pub(crate) names: Arc<Items<Name>>,
    /// Index of the places at which the entries last changed.
    pub(crate) index: ChangeIndex,
    ghost some: { 1 ≤ count },
    ghost counted: { length tokens ≡ count - retired count },
    ghost indexed: { indexed_names names
        ≡ rising_by (λ n. n.text) (numbered 0 (map held_names held)) },
    ghost changes: { index ≡ map held_change held },
}

impl<Z: ZoneData> Catalogue<Z> {
    ghost use Rattle.catalogue.specs.Holdings.{ForEachHistory, zone_count, place_count};
    ghost use Rattle.catalogue.specs.Holdings.{names_held, release_held};

    /// How many releases the history has, which is the last place.
    pub fn count(&self) -> u32
        ensures places { result ≡ place_count self.now }
        ensures some { 1 ≤ result }
        ensures count { ForEachHistory Z.bytes Z.sound self.now (λ H. result ≡ length H) }
    {
        self.count
    }

    /// How many zones the last release has.
    pub fn len(&self) -> usize
        ensures zones { result ≡ zone_count self.now }
        ensures len { ForEachHistory Z.bytes Z.sound self.now (λ H. result ≡ length (meta H)) }
    {
        self.held.len()
    }

    /// The entry at a position in the rising order of the identifiers, counted from 0.
    pub fn entry(&self, i: usize) -> &Entry<Z>
        requires { i < zone_count self.now }
        ensures entry { ForEachHistory Z.bytes Z.sound self.now (λ H.
            slice_get (meta H) i ≡ Some (entry_data Z.bytes result.now)) }
        ensures plain { ForEachHistory Z.bytes Z.sound self.now (λ H.
            IsPlainEntry (entry_data Z.bytes result.now)) }
    {
        &self.held.as_slice()[i].entry
    }

    /// The number of places whose tokens are no longer kept.
    pub(crate) fn retired(&self) -> u32
        ensures { result ≡ retired (place_count self.now) }
    {
        self.count.saturating_sub(KEPT_TOKENS)
    }

    /// The token of one of the last [`KEPT_TOKENS`] places, counted from 1.
    pub fn token(&self, n: u32) -> Token
        requires some { 1 ≤ n }
        requires there { n ≤ place_count self.now }
        requires kept { place_count self.now < n + KEPT_TOKENS }
        ensures token { ForEachHistory Z.bytes Z.sound self.now (λ H. result ≡ token_of H n) }
        ensures plain { ForEachHistory Z.bytes Z.sound self.now (λ H. IsPlain result) }
    {
        self.tokens.as_slice()[(n - 1 - self.retired()) as usize].copy()
    }

    /// The index of the places at which the entries last changed, in the order of the entries.
    pub fn index(&self) -> &ChangeIndex
        ensures { ForEachHistory Z.bytes Z.sound self.now (λ H.
            result.now ≡ map (λ e. e.changed) (meta H)) }
    {
        &self.index
    }

    /// How many names, identifiers and aliases, the zones of the last release have.
    pub fn name_count(&self) -> usize
        ensures { result ≡ length (names_held Z.bytes self.now) }
    {
        self.names.len()
    }

    /// The name at a position in the rising order of all names of the last release, counted from 0.
    pub fn name(&self, i: usize) -> &[u8]
        requires { i < length (names_held Z.bytes self.now) }
        ensures { slice_get (names_held Z.bytes self.now) i ≡ Some result.now }
    {
        text_at(self.names.as_slice(), i)
    }

    /// The stamp of the last release.
    pub fn last_stamp(&self) -> Moment
        ensures held { result.seconds ≡ (release_held Z.bytes self.now).stamp }
        ensures last { ForEachHistory Z.bytes Z.sound self.now (λ H.
            IsSomeAnd (last_release H) (λ r. result.seconds ≡ r.stamp)) }
    {
        self.head.stamp
    }

    /// The publisher of the last release.
    pub fn publisher(&self) -> &[u8]
        ensures { ForEachHistory Z.bytes Z.sound self.now (λ H.
            IsSomeAnd (last_release H) (λ r. result.now ≡ r.publisher)) }
    {
        self.head.publisher.as_slice()
    }

    /// The version of the last release.
    pub fn version(&self) -> &[u8]
        ensures { ForEachHistory Z.bytes Z.sound self.now (λ H.
            IsSomeAnd (last_release H) (λ r. result.now ≡ r.version)) }
    {
        self.head.version.as_slice()
    }

    /// The table of leap seconds of the last release.
    pub fn leaps(&self) -> Option<&Leaps>
        ensures { ForEachHistory Z.bytes Z.sound self.now (λ H.
            IsSomeAnd (last_release H) (λ r. option_copied result ≡ r.leaps)) }
    {
        self.head.leaps.as_ref()
    }
}
