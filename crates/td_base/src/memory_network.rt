ghost use Rattle.std.specs.Prelude.{◌≡◌, ◌≢◌, ◌<◌, ◌≤◌, ◌+◌, ◌-◌, [], ◌∷◌, ◌++◌, length, map};
ghost use Rattle.std.specs.Prelude.{IsSome, IfOk, OnOk, OnErr};
ghost use Rattle.td_base.specs.Doors.{IsNewDoor, OpenFits, OpenTells, Opens, opened_at};
ghost use Rattle.td_base.specs.MemoryNetworks.{TellsNone, coming_in, memory_network};
ghost use Rattle.td_base.specs.MemoryNetworks.{network_content};
ghost use Rattle.td_base.specs.Upstreams.{Reaches};
ghost use Rattle.td_base.specs.Views.{one_more};
ghost use Rattle.td_base.specs.declared.network.Made.TheVariants as made;

use crate::{Bytes, Door, Made, Network, NoMemory, Upstream};
use std::alloc::Global;
use std::collections::VecDeque;
use std::marker::Model;
use std::mem::replace;

/// An address at which a [`MemoryNetwork`] opened doors, and how many.
#[derive(Drop)]
pub struct Opened {
    pub address: Bytes,
    pub doors: u32,
}

/// A network in memory. It gives its doors and other servers in their order, whatever the address.
/// Contracts see what it has, what it gave at which address, and how often it was called. It fails
/// only when it has too few.
#[derive(Drop)]
pub struct MemoryNetwork<D: Door, U: Upstream> {
    doors: Vec<D>,
    opened: Vec<Opened>,
    upstreams: VecDeque<U>,
    reached: Vec<Bytes>,
    calls: u64,
    faults: u64,
}

impl<D: Door, U: Upstream> Model for MemoryNetwork<D, U> {
    ghost use Rattle.std.specs.Prelude.{length, map};
    ghost use Rattle.td_base.specs.MemoryNetworks.{MemoryNetworkState};

    ghost Value = { MemoryNetworkState };

    ghost use Rattle.td_base.specs.MemoryNetworks.{coming_in};

    ghost view = { λ n. record {
      doors = map (λ d. coming_in (D.seen d).content) n.doors.items;
      opened = n.opened.items;
      upstreams = length n.upstreams.items;
      reached = n.reached.items;
      calls = n.calls;
      faults = n.faults;
    } };

    ghost use Rattle.std.specs.Prelude.{All};
    ghost use Rattle.td_base.specs.MemoryNetworks.{TellsNew, TellsNone};

    ghost invariant = { λ n. All (λ d. TellsNew (D.seen d)) n.doors.items
        × All (λ u. TellsNone (U.seen u)) n.upstreams.items };
}

impl<D: Door, U: Upstream> MemoryNetwork<D, U> {
    /// A network without doors and upstreams.
    pub fn new(alloc: Global) -> MemoryNetwork<D, U>
        ensures { result ≡ record {
          doors = [];
          opened = [];
          upstreams = 0;
          reached = [];
          calls = 0;
          faults = 0;
        } }
    {
        MemoryNetwork {
            doors: Vec::new(alloc),
            opened: Vec::new(alloc),
            upstreams: VecDeque::new(alloc),
            reached: Vec::new(alloc),
            calls: 0,
            faults: 0,
        }
    }

    /// The doors that it granted, in the order of the calls.
    pub fn opened(&self) -> &[Opened]
        ensures { result.now ≡ self.now.opened }
    {
        self.opened.as_slice()
    }

    /// The addresses at which it gave an upstream, in the order of the calls.
    pub fn reached(&self) -> &[Bytes]
        ensures { result.now ≡ self.now.reached }
    {
        self.reached.as_slice()
    }

    /// How many doors it still has to give.
    pub fn len(&self) -> usize
        ensures { result ≡ length self.now.doors }
    {
        self.doors.len()
    }

    /// Takes the first `number` doors, which must exist.
    fn give(&mut self, alloc: Global, address: &[u8], number: u32) -> Result<Vec<D>, NoMemory>
        requires { number ≤ length self.old.doors }
        ensures tells { IfOk result (λ doors. OpenTells D.seen (network_content self.old)
            (record (network_content self.new) { calls = one_more self.old.calls })
            address.now number (made.Given doors)) }
        ensures fits { IfOk result (λ doors. OpenFits D.seen number (made.Given doors)) }
        ensures calls { self.new.calls ≡ self.old.calls }
        ensures faults { self.new.faults ≡ self.old.faults }
        ensures err { OnErr result (self.new ≡ self.old) }
    {
        let address = Bytes::from_slice(alloc, address)?;
        self.opened.reserve(1)?;
        let rest = self.doors.split_off(number as usize)?;
        let given = replace(&mut self.doors, rest);
        self.opened.push_reserved(Opened {
            address,
            doors: number,
        });
        Ok(given)
    }

    /// Takes the first upstream, which must exist.
    fn reach(&mut self, alloc: Global, address: &[u8]) -> Result<U, NoMemory>
        requires { 0 < self.old.upstreams }
        ensures gives { IfOk result (λ upstream. TellsNone (U.seen upstream)) }
        ensures ok { OnOk result (self.new ≡ record self.old {
          upstreams = self.old.upstreams - 1;
          reached = self.old.reached ++ address.now ∷ [];
        }) }
        ensures err { OnErr result (self.new ≡ self.old) }
    {
        let address = Bytes::from_slice(alloc, address)?;
        self.reached.reserve(1)?;
        match self.upstreams.pop_front() {
            Some(upstream) => {
                self.reached.push_reserved(address);
                Ok(upstream)
            }
            None => Err(NoMemory),
        }
    }
}

impl<D: Door + Drop, U: Upstream> MemoryNetwork<D, U> {
    /// Adds a door after those that it has. The door must have visible content and no calls so far.
    pub fn push(&mut self, door: D) -> Result<(), NoMemory>
        requires new { IsNewDoor (D.seen door) }
        requires told { IsSome (D.seen door).content }
        ensures ok { OnOk result (self.new ≡ record self.old {
          doors = self.old.doors ++ coming_in (D.seen door).content ∷ [];
        }) }
        ensures err { OnErr result (self.new ≡ self.old) }
    {
        self.doors.push(door)?;
        Ok(())
    }
}

impl<D: Door, U: Upstream + Drop> MemoryNetwork<D, U> {
    /// Adds an upstream after those that it has. It must have visible exchanges and no calls so
    /// far.
    pub fn push_upstream(&mut self, upstream: U) -> Result<(), NoMemory>
        requires { TellsNone (U.seen upstream) }
        ensures ok { OnOk result (self.new ≡ record self.old {
          upstreams = self.old.upstreams + 1;
        }) }
        ensures err { OnErr result (self.new ≡ self.old) }
    {
        self.upstreams.push_back(upstream)?;
        Ok(())
    }
}

impl<D: Door, U: Upstream> Network for MemoryNetwork<D, U> {
    type Door = D;

    type Up = U;

    ghost seen = { memory_network };

    fn doors(&mut self, alloc: Global, address: &[u8], number: u32) -> Made<Vec<D>>
        ensures opens { Opens D.seen (memory_network self.old) (memory_network self.new)
            address.now number result }

        // It fails only when it has too few doors.
        ensures fewer { length self.old.doors < number
            → (result ≡ Made.Failed)
            × (self.new ≡ record self.old {
              calls = one_more self.old.calls;
              faults = one_more self.old.faults;
            }) }
        ensures enough { number ≤ length self.old.doors
            → (result ≢ Made.Failed) × (self.new.faults ≡ self.old.faults) }
    {
        self.calls = self.calls.saturating_add(1);
        if self.doors.len() < number as usize {
            self.faults = self.faults.saturating_add(1);
            return Made::Failed;
        }
        match self.give(alloc, address, number) {
            Ok(doors) => Made::Given(doors),
            Err(NoMemory) => Made::NoMemory,
        }
    }

    fn upstream(&mut self, alloc: Global, address: &[u8]) -> Made<U>
        ensures reaches { Reaches U.seen (memory_network self.old) (memory_network self.new)
            address.now result }

        // It fails only when it has no upstream.
        ensures none { self.old.upstreams ≡ 0
            → (result ≡ Made.Failed)
            × (self.new ≡ record self.old {
              calls = one_more self.old.calls;
              faults = one_more self.old.faults;
            }) }
        ensures some { 0 < self.old.upstreams
            → (result ≢ Made.Failed) × (self.new.faults ≡ self.old.faults) }
    {
        self.calls = self.calls.saturating_add(1);
        if self.upstreams.is_empty() {
            self.faults = self.faults.saturating_add(1);
            return Made::Failed;
        }
        match self.reach(alloc, address) {
            Ok(upstream) => Made::Given(upstream),
            Err(NoMemory) => Made::NoMemory,
        }
    }
}
