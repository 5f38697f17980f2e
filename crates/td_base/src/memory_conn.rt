ghost use Rattle.std.specs.Prelude.{◌≡◌, ◌≢◌, ◌<◌, [], drop, length, min};
ghost use Rattle.td_base.specs.Memory.{piece_size};
ghost use Rattle.td_base.specs.MemoryDoors.{memory_conn};
ghost use Rattle.td_base.specs.Outside.{ConnReads, ConnWrites};
ghost use Rattle.td_base.specs.Views.{one_more};

use crate::{Conn, MemorySink, MemorySource, ReadStep, Sink, Source, WriteStep};

/// A connection in memory: a script that is read, and room for what is written. It keeps the whole
/// script, and contracts see which of its bytes were read. No read fails, and a write fails only
/// when no room is left.
#[derive(Drop)]
pub struct MemoryConn {
    pub source: MemorySource,
    pub sink: MemorySink,
}

impl MemoryConn {
    /// Joins the two into a connection.
    pub fn new(source: MemorySource, sink: MemorySink) -> MemoryConn
        ensures { result ≡ record { source = source; sink = sink } }
    {
        MemoryConn { source, sink }
    }
}

impl Conn for MemoryConn {
    ghost seen = { memory_conn };

    fn read(&mut self, room: &mut [u8]) -> ReadStep
        requires { 0 < length room.old }
        ensures read { ConnReads (memory_conn self.old) (memory_conn self.new) result room.new }
        ensures sink { self.new.sink ≡ self.old.sink }

        // It ends when no byte is left; otherwise it gives a piece of the next size.
        ensures end { self.old.source.left ≡ []
            → (result ≡ ReadStep.End) × (self.new.source ≡ self.old.source) }
        ensures piece { self.old.source.left ≢ []
            → result ≡ ReadStep.Got (piece_size self.old.source.sizes
            (min (length self.old.source.left) (length room.old))) }
        ensures sizes { self.old.source.left ≢ []
            → self.new.source.sizes ≡ drop 1 self.old.source.sizes }
    {
        self.source.read(room)
    }

    fn write(&mut self, piece: &[u8]) -> WriteStep
        requires { 0 < length piece.now }
        ensures write { ConnWrites (memory_conn self.old) (memory_conn self.new) result piece.now }
        ensures source { self.new.source ≡ self.old.source }

        // It fails only when the room is used up; otherwise it takes a piece of the next size.
        ensures full { self.old.sink.room ≡ 0
            → (result ≡ WriteStep.Failed)
            × (self.new.sink ≡ record self.old.sink {
              faults = one_more self.old.sink.faults;
            }) }
        ensures piece { 0 < self.old.sink.room
            → result ≡ WriteStep.Took (piece_size self.old.sink.sizes
            (min (length piece.now) self.old.sink.room)) }
        ensures sizes { 0 < self.old.sink.room
            → self.new.sink.sizes ≡ drop 1 self.old.sink.sizes }
    {
        self.sink.write(piece)
    }
}
