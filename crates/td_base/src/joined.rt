ghost use Rattle.std.specs.Prelude.{◌≡◌, None};

use crate::{Conn, ReadStep, Sink, Source, WriteStep};

/// A connection made of a borrowed source and a borrowed sink. Contracts see the bytes left in the
/// source and the bytes the sink took, but not the bytes already read. Failed reads are the
/// source's, and failed writes are the sink's.
#[derive(Drop)]
pub struct Joined<'a, C: Source, K: Sink> {
    pub source: &'a mut C,
    pub sink: &'a mut K,
}

impl<'a, C: Source, K: Sink> Joined<'a, C, K> {
    /// The connection of the two.
    pub fn new(source: &'a mut C, sink: &'a mut K) -> Joined<'a, C, K>
        ensures source { result.source.ghost_name ≡ source.entry.ghost_name }
        ensures sink { result.sink.ghost_name ≡ sink.entry.ghost_name }
        ensures source_now { result.source.now ≡ source.old }
        ensures sink_now { result.sink.now ≡ sink.old }
    {
        Joined { source, sink }
    }
}

impl<'a, C: Source, K: Sink> Conn for Joined<'a, C, K> {
    ghost seen = { λ j. record {
      given = None;
      left = (C.seen j.source.now).left;
      taken = (K.seen j.sink.now).taken;
      read_faults = (C.seen j.source.now).faults;
      write_faults = (K.seen j.sink.now).faults;
      source = j.source.ghost_name;
      sink = j.sink.ghost_name;
    } };

    fn read(&mut self, room: &mut [u8]) -> ReadStep {
        self.source.read(room)
    }

    fn write(&mut self, piece: &[u8]) -> WriteStep {
        self.sink.write(piece)
    }
}
