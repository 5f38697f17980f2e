ghost use Rattle.std.specs.Prelude.{◌≡◌, ◌<◌, ◌++◌, ◌↔◌, [], length, OnOk, OnErr, IsTrue, false};
ghost use Rattle.stretches.specs.Costs as costs;
ghost use Rattle.stretches.specs.Fronts.{front_length};
ghost use Rattle.stretches.specs.Intakes.{Gives, ready_after};

use crate::costs::is_costly;
use crate::looking::{Look, look_at};
use http_request::{HeldBytes, Scan, searches};
use std::alloc::Global;
use std::marker::Model;
use td_base::NoMemory;

/// The bytes of a connection that were received and not yet given to a worker. Only whole heads are
/// given, one after the other, so that a worker never waits for the rest of one.
#[derive(Drop)]
pub struct Intake {
    held: HeldBytes,
    ready: usize,
    scan: Scan,
}

impl Model for Intake {
    ghost use Rattle.std.specs.Prelude.{◌≤◌, length, drop};
    ghost use Rattle.http_request.specs.Scans.{IsScanned};
    ghost use Rattle.stretches.specs.Intakes.{Came};

    ghost Value = { Came };

    ghost view = { λ i. record { bytes = i.held.rest; ready = i.ready } };

    ghost invariant = { λ i. (i.ready ≤ length i.held.rest)
        × IsScanned (drop i.ready i.held.rest) i.scan };
}

impl Intake {
    /// Nothing was received yet. It takes no memory, and grows by the allocator.
    pub fn new(alloc: Global) -> Intake
        ensures { result ≡ record { bytes = []; ready = 0 } }
    {
        Intake {
            held: HeldBytes::new(alloc),
            ready: 0,
            scan: Scan::start(),
        }
    }

    /// Whether nothing is held.
    pub fn is_empty(&self) -> bool
        ensures { IsTrue result ↔ (self.now.bytes ≡ []) }
    {
        self.held.as_slice().is_empty()
    }

    /// Whether it stands between two heads: no head was given in part.
    pub fn is_between(&self) -> bool
        ensures { IsTrue result ↔ (self.now.ready ≡ 0) }
    {
        self.ready == 0
    }

    /// How many bytes are held.
    pub fn len(&self) -> usize
        ensures { result ≡ length self.now.bytes }
    {
        self.held.as_slice().len()
    }

    /// Whether the bytes held have a line that requests something costly.
    pub fn is_costly(&self) -> bool
        ensures { result ≡ costs.is_costly self.now.bytes }
    {
        is_costly(self.held.as_slice())
    }

    /// Moves what is held into memory of its size. Out of memory, nothing changes.
    pub fn fit(&mut self, alloc: Global)
        ensures { self.new ≡ self.old }
    {
        searches();
        let mut held = HeldBytes::new(alloc);
        if held.append(self.held.as_slice()).is_ok() {
            self.held = held;
        }
    }

    /// Appends a received piece.
    pub fn append(&mut self, piece: &[u8]) -> Result<(), NoMemory>
        ensures ok { OnOk result
            (self.new ≡ record self.old { bytes = self.old.bytes ++ piece.now }) }
        ensures err { OnErr result (self.new ≡ self.old) }
    {
        searches();
        self.held.append(piece)?;
        Ok(())
    }

    /// Whether something may be given. If nothing could be given so far, it searches the bytes that
    /// were not searched yet.
    pub fn look(&mut self) -> bool
        ensures after { self.new ≡ record self.old { ready = ready_after self.old } }
        ensures ready { IsTrue result ↔ (0 < self.new.ready) }
        ensures waits { result ≡ false → front_length self.new.bytes ≡ 0 }
    {
        if self.ready > 0 {
            return true;
        }
        match look_at(self.held.as_slice(), self.scan) {
            Look::Ready(count) => {
                self.ready = count;
                self.scan = Scan::start();
                true
            }
            Look::Waiting(scan) => {
                self.scan = scan;
                false
            }
        }
    }

    /// Gives bytes that are ready, as many as fit into the room, and returns how many.
    pub fn give(&mut self, room: &mut [u8]) -> usize
        ensures { Gives self.old self.new room.new result }
    {
        let count = self.ready.min(room.len());
        room[..count].copy_from_slice(&self.held.as_slice()[..count]);
        self.held.take(count);
        self.ready -= count;
        count
    }
}
