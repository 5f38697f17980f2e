ghost use Rattle.std.specs.Prelude.{◌<◌, ◌≡◌, length};
ghost use Rattle.td_base.specs.Doors.{IsUnfailed};
ghost use Rattle.td_base.specs.Outside.{ConnReads, ConnWrites, WriteTells};
ghost use Rattle.devices.specs.Flows.{EndsStretch, GivesStep, to_give, written};
ghost use Rattle.devices.specs.RealDoors.{conn_view};

use crate::incoming::Given;
use crate::now::micros;
use crate::socket::Sent;
use crate::wire::Wire;
use std::boxed::Box;
use std::io::{Read, Write};
use std::time::Clock;
use td_base::{Conn, ReadStep, WriteStep};

/// A connection over a stream that does not block, for a stretch of whole heads. It reads the clock
/// before each read but the first, so that something is served before its turn is spent. It does
/// not where a read can only end the stretch. To the contract of [`Conn`] it states no bytes, since
/// the end of a stretch is not that of its stream. Its counts are the failed reads and writes of
/// the stretch.
#[derive(Drop)]
pub struct RealConn<S, R> {
    wire: Box<Wire<S>>,
    clock: R,
    /// Whether it was read in this stretch.
    was_read: bool,
    read_faults: u64,
    write_faults: u64,
}

impl<S, R: Drop> RealConn<S, R> {
    /// The connection, of which no call failed in this stretch yet.
    pub(crate) fn new(wire: Box<Wire<S>>, clock: R) -> RealConn<S, R>
        ensures { IsUnfailed (conn_view result) }
    {
        RealConn {
            wire,
            clock,
            was_read: false,
            read_faults: 0,
            write_faults: 0,
        }
    }

    /// What is left of the connection at the end of the stretch.
    pub(crate) fn into_wire(self) -> Box<Wire<S>>
        ensures { result ≡ self.wire }
    {
        let RealConn { wire, .. } = self;
        wire
    }
}

impl<S, R: Clock> RealConn<S, R> {
    /// Reads the clock for its turn, unless this is the first read of the stretch, or nothing is
    /// left to give in it.
    fn look_at_clock(&mut self)
        ensures incoming { self.new.wire.value.incoming ≡ self.old.wire.value.incoming }
        ensures outgoing { self.new.wire.value.outgoing ≡ self.old.wire.value.outgoing }
        ensures stream { self.new.wire.value.stream ≡ self.old.wire.value.stream }
        ensures faults { conn_view self.new ≡ conn_view self.old }
    {
        if !self.was_read {
            self.was_read = true;
            return;
        }
        if self.wire.is_exhausted() {
            return;
        }
        if let Ok(time) = self.clock.monotonic() {
            self.wire.see(micros(time));
        }
    }
}

impl<S: Read + Write, R: Clock> Conn for RealConn<S, R> {
    ghost seen = { conn_view };

    /// The end is that of the stretch.
    fn read(&mut self, room: &mut [u8]) -> ReadStep
        requires { 0 < length room.old }
        ensures read { ConnReads (conn_view self.old) (conn_view self.new) result room.new }
        ensures gives { GivesStep
            (to_give self.old.wire.value.incoming (S.remaining self.old.wire.value.stream))
            (to_give self.new.wire.value.incoming (S.remaining self.new.wire.value.stream))
            result room.new }
        ensures end { result ≡ ReadStep.End
            → EndsStretch self.old.wire.value.outgoing self.new.wire.value.turn
            self.new.wire.value.incoming }
    {
        self.look_at_clock();
        match self.wire.read(room) {
            Given::Bytes(count) => ReadStep::Got(count),
            Given::End => ReadStep::End,
            Given::Broken => {
                self.read_faults = self.read_faults.saturating_add(1);
                ReadStep::Failed
            }
        }
    }

    /// A write fails if the stream does, or if no more may be held.
    fn write(&mut self, piece: &[u8]) -> WriteStep
        requires { 0 < length piece.now }
        ensures write { ConnWrites (conn_view self.old) (conn_view self.new) result piece.now }
        ensures written { WriteTells
            (written self.old.wire.value.outgoing (S.contents self.old.wire.value.stream))
            (written self.new.wire.value.outgoing (S.contents self.new.wire.value.stream))
            result piece.now }
    {
        match self.wire.write(piece) {
            Sent::Bytes(count) => WriteStep::Took(count),
            Sent::Nothing | Sent::Broken => {
                self.write_faults = self.write_faults.saturating_add(1);
                WriteStep::Failed
            }
        }
    }
}
