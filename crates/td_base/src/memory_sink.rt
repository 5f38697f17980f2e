ghost use Rattle.std.specs.Prelude.{◌≡◌, ◌+◌, ◌<◌, ◌≤◌, ◌==◌, [], length, min, drop, IfOk};
ghost use Rattle.td_base.specs.Memory.{SinkState, piece_size, sink_view};
ghost use Rattle.td_base.specs.Views.{one_more};
ghost use Rattle.td_base.specs.Outside.{Writes};

use crate::piece_sizes::PieceSizes;
use crate::{Items, NoMemory, Sink, WriteStep};
use std::alloc::Global;
use std::marker::Model;

/// A sink in room that is allocated when it is made. Contracts see what it took and the room left.
/// A write fails only when no room is left, and the count of faults counts these.
#[derive(Drop)]
pub struct MemorySink {
    held: Vec<u8>,
    room: usize,
    faults: u64,
    sizes: PieceSizes,
}

impl Model for MemorySink {
    ghost use Rattle.std.specs.Prelude.{◌+◌, ◌≤◌, vec_len, vec_capacity};
    ghost use Rattle.td_base.specs.Memory.{SinkState};

    ghost Value = { SinkState };

    ghost view = { λ s. record {
      taken = s.held.items;
      room = s.room;
      faults = s.faults;
      sizes = s.sizes;
    } };

    ghost invariant = { λ s. vec_len s.held + s.room ≤ vec_capacity s.held };
}

impl MemorySink {
    /// An empty sink, with room for `room` bytes.
    pub fn new(alloc: Global, room: usize) -> Result<MemorySink, NoMemory>
        ensures { IfOk result (λ s.
            s ≡ record { taken = []; room = room; faults = 0; sizes = [] }) }
    {
        MemorySink::in_pieces(alloc, room, Items::new(alloc))
    }

    /// The same, with the size of the piece that each write takes while there is room for it.
    pub fn in_pieces(
        alloc: Global,
        room: usize,
        sizes: Items<usize>,
    ) -> Result<MemorySink, NoMemory>
        ensures { IfOk result (λ s.
            s ≡ record { taken = []; room = room; faults = 0; sizes = sizes }) }
    {
        let held = Vec::with_capacity(alloc, room)?;
        Ok(MemorySink {
            held,
            room,
            faults: 0,
            sizes: PieceSizes::new(sizes),
        })
    }

    /// The bytes taken so far.
    pub fn taken(&self) -> &[u8]
        ensures { result.now ≡ self.now.taken }
    {
        self.held.as_slice()
    }

    /// How many bytes it can still take.
    pub fn room(&self) -> usize
        ensures { result ≡ self.now.room }
    {
        self.room
    }
}

impl Sink for MemorySink {
    ghost seen = { sink_view };

    fn write(&mut self, piece: &[u8]) -> WriteStep
        requires { 0 < length piece.now }
        ensures write { Writes (sink_view self.old) (sink_view self.new) result piece.now }

        // It fails only when the room is used up; otherwise it takes a piece of the next size.
        ensures full { self.old.room ≡ 0
            → (result ≡ WriteStep.Failed)
            × (self.new ≡ record self.old { faults = one_more self.old.faults }) }
        ensures piece { 0 < self.old.room
            → result ≡ WriteStep.Took
            (piece_size self.old.sizes (min (length piece.now) self.old.room)) }
        ensures sizes { 0 < self.old.room → self.new.sizes ≡ drop 1 self.old.sizes }
        ensures faults { 0 < self.old.room → self.new.faults ≡ self.old.faults }
        ensures took { length self.new.taken + self.new.room
            ≡ length self.old.taken + self.old.room }
    {
        if self.room == 0 {
            self.faults = self.faults.saturating_add(1);
            return WriteStep::Failed;
        }
        let size = self.sizes.next(piece.len().min(self.room));
        let _ = self.held.extend_from_slice(&piece[..size]);
        self.room -= size;
        WriteStep::Took(size)
    }
}
