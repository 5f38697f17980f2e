ghost use Rattle.td_base.specs.DoorViews.{NetworkView};
ghost use Rattle.td_base.specs.Doors.{Opens};
ghost use Rattle.td_base.specs.Upstreams.{Reaches};

use crate::{Door, Upstream};
use std::alloc::Global;

/// The result of a call of a [`Network`].
#[derive(Drop)]
pub enum Made<T> {
    /// The requested doors or upstream.
    Given(T),
    /// The network failed.
    Failed,
    /// Out of memory.
    NoMemory,
}

/// Opens doors at addresses, and reaches other servers at theirs. Contracts see what a network in
/// memory will give and what it gave; they see nothing of the real network.
pub trait Network {
    type Door: Door;

    type Up: Upstream;

    ghost seen: { Self → NetworkView };

    /// Opens `number` doors at an address, through which connections to it come.
    fn doors(&mut self, alloc: Global, address: &[u8], number: u32) -> Made<Vec<Self::Door>>
        ensures opens { Opens Self.Door.seen (seen self.old) (seen self.new) address.now number
            result };

    /// The server at an address, to which no request was sent yet.
    fn upstream(&mut self, alloc: Global, address: &[u8]) -> Made<Self::Up>
        ensures reaches { Reaches Self.Up.seen (seen self.old) (seen self.new) address.now result };
}
