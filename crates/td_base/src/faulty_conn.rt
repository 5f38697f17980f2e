ghost use Rattle.std.specs.Prelude.{◌≡◌, ◌<◌, length, true, false};
ghost use Rattle.td_base.specs.Memory.{is_chosen, counted, faulty_conn};
ghost use Rattle.td_base.specs.Outside.{ConnReads, ConnWrites, is_failed_read, is_failed_write};

use crate::failing_calls::FailingCalls;
use crate::{Conn, Items, ReadStep, WriteStep};
use std::marker::Model;

/// A connection that makes chosen reads and writes fail, without calling the inner one. Reads and
/// writes are counted separately, each from 1. The counts of faults include the failures of the
/// inner connection.
#[derive(Drop)]
pub struct FaultyConn<C> {
    inner: C,
    reads: FailingCalls,
    writes: FailingCalls,
}

impl<C> Model for FaultyConn<C> {
    ghost use Rattle.td_base.specs.Memory.{FaultyConnState};

    ghost Value = { FaultyConnState C };

    ghost view = { λ f. record { inner = f.inner; reads = f.reads; writes = f.writes } };
}

impl<C> FaultyConn<C> {
    /// Wraps the connection; the reads and the writes with these numbers fail.
    pub fn new(inner: C, reads: Items<u64>, writes: Items<u64>) -> FaultyConn<C>
        ensures { result ≡ record {
          inner = inner;
          reads = record { failing = reads; calls = 0; faults = 0 };
          writes = record { failing = writes; calls = 0; faults = 0 };
        } }
    {
        let reads = FailingCalls::new(reads);
        let writes = FailingCalls::new(writes);
        FaultyConn {
            inner,
            reads,
            writes,
        }
    }

    /// The connection inside.
    pub fn inner(&self) -> &C
        ensures { result.now ≡ self.now.inner }
    {
        &self.inner
    }
}

impl<C: Conn> Conn for FaultyConn<C> {
    ghost seen = { faulty_conn C.seen };

    fn read(&mut self, room: &mut [u8]) -> ReadStep
        requires { 0 < length room.old }
        ensures read { ConnReads (faulty_conn C.seen self.old) (faulty_conn C.seen self.new)
            result room.new }
        ensures calls { self.new.reads ≡ counted self.old.reads (is_failed_read result) }
        ensures writes { self.new.writes ≡ self.old.writes }
        ensures chosen { is_chosen self.old.reads ≡ true
            → (result ≡ ReadStep.Failed) × (self.new.inner ≡ self.old.inner) }
        ensures other { is_chosen self.old.reads ≡ false
            → ConnReads (C.seen self.old.inner) (C.seen self.new.inner) result room.new }
    {
        if self.reads.begin() {
            self.reads.count_fault();
            return ReadStep::Failed;
        }
        let step = self.inner.read(room);
        if step == ReadStep::Failed {
            self.reads.count_fault();
        }
        step
    }

    fn write(&mut self, piece: &[u8]) -> WriteStep
        requires { 0 < length piece.now }
        ensures write { ConnWrites (faulty_conn C.seen self.old) (faulty_conn C.seen self.new)
            result piece.now }
        ensures calls { self.new.writes ≡ counted self.old.writes (is_failed_write result) }
        ensures reads { self.new.reads ≡ self.old.reads }
        ensures chosen { is_chosen self.old.writes ≡ true
            → (result ≡ WriteStep.Failed) × (self.new.inner ≡ self.old.inner) }
        ensures other { is_chosen self.old.writes ≡ false
            → ConnWrites (C.seen self.old.inner) (C.seen self.new.inner) result piece.now }
    {
        if self.writes.begin() {
            self.writes.count_fault();
            return WriteStep::Failed;
        }
        let step = self.inner.write(piece);
        if step == WriteStep::Failed {
            self.writes.count_fault();
        }
        step
    }
}
