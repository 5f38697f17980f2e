ghost use Rattle.std.specs.Prelude.{◌≡◌, ◌<◌, ◌≤◌, ℕ, List, [], ◌∷◌, ◌++◌, length, nat_eq};
ghost use Rattle.std.specs.Prelude.{OnOk, OnErr};
ghost use Rattle.std.specs.Cmp.{partial_equiv_from_equiv};
ghost use Rattle.std.specs.Cmp.Lexicographic.{pointwise, nat_list_eq_equiv};
ghost use Rattle.td_base.specs.declared.report.TheConstants.{MOST_PLACES};

use crate::{Bytes, NoMemory};
use std::alloc::Global;
use std::marker::Model;

/// The most places of one report, and so the most answers on one connection.
pub const MOST_PLACES: usize = 1000;

/// Why a connection ended.
#[derive(Clone, Copy, Debug, PartialEq, Eq)]
pub enum End {
    /// Every request was answered, up to the end of the input or up to the request that closes the
    /// connection.
    Closed,
    /// A read failed.
    ReadFault,
    /// A write failed.
    WriteFault,
    /// Memory ran out.
    NoMemory,
}

/// The places in a history from which the requests of a connection were answered, in order. Places
/// count from 1. There are at most 1,000. Contracts see the list of the numbers.
#[derive(Drop)]
pub struct Places {
    held: Vec<u32>,
}

impl Model for Places {
    ghost use Rattle.std.specs.Prelude.{◌≤◌, List, ℕ, length};
    ghost use Rattle.td_base.specs.declared.report.TheConstants.{MOST_PLACES};

    ghost Value = { List ℕ };

    ghost view = { λ p. p.held.items };

    ghost invariant = { λ p. length p.held.items ≤ MOST_PLACES };
}

impl PartialEq for Places {
    ghost eq = { pointwise nat_eq };

    ghost laws = { partial_equiv_from_equiv nat_list_eq_equiv };

    fn eq(&self, other: &Self) -> bool {
        self.as_slice() == other.as_slice()
    }
}

impl Eq for Places {
    ghost laws = { nat_list_eq_equiv };
}

impl Places {
    /// No places. It takes no memory yet; later growth uses this allocator.
    pub fn new(alloc: Global) -> Places
        ensures { result ≡ [] }
    {
        Places {
            held: Vec::new(alloc),
        }
    }

    /// Appends a place. There must be room for it. When out of memory, nothing is appended.
    pub fn push(&mut self, place: u32) -> Result<(), NoMemory>
        requires { length self.old < MOST_PLACES }
        ensures ok { OnOk result (self.new ≡ self.old ++ place ∷ []) }
        ensures err { OnErr result (self.new ≡ self.old) }
    {
        self.held.push(place)?;
        Ok(())
    }

    /// Takes the last place back, if there is one.
    pub fn pop(&mut self)
        ensures { (places : List ℕ) (place : ℕ) → self.old ≡ places ++ place ∷ []
            → self.new ≡ places }
    {
        self.held.pop();
    }

    /// Replaces the last place.
    pub fn replace_last(&mut self, place: u32)
        requires { 0 < length self.old }
        ensures { (places : List ℕ) (last : ℕ) → self.old ≡ places ++ last ∷ []
            → self.new ≡ places ++ place ∷ [] }
    {
        let last = self.held.len() - 1;
        self.held[last] = place;
    }

    /// The places.
    pub fn as_slice(&self) -> &[u32]
        ensures value { result.now ≡ self.now }
        ensures fits { length self.now ≤ MOST_PLACES }
    {
        self.held.as_slice()
    }
}

/// How a connection ended, which places its requests were answered from, and how many answers
/// missed the cache and were computed.
#[derive(Drop, PartialEq, Eq)]
pub struct Report {
    pub end: End,
    pub places: Places,
    pub computed: u64,
}

/// The role of a server: a primary with its own releases, or a mirror that follows the server at
/// this address.
#[derive(Drop, PartialEq, Eq)]
pub enum Role {
    Primary,
    Secondary(Bytes),
}

/// A request of one server to another: the list of zones, changed since a token if one is given, or
/// the zone of an identifier.
#[derive(Drop, PartialEq, Eq)]
pub enum Ask {
    List(Option<Bytes>),
    Get(Bytes),
}
