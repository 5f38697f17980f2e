ghost use Rattle.std.specs.Prelude.{◌≡◌, ◌<◌, length, true, false};
ghost use Rattle.td_base.specs.Memory.{is_chosen, counted, faulty_source, faulty_sink};
ghost use Rattle.td_base.specs.Memory.{faulty_store};
ghost use Rattle.td_base.specs.Outside.{Reads, Writes, Looks, is_failed_read, is_failed_write};
ghost use Rattle.td_base.specs.Outside.{is_failed_look};

use crate::failing_calls::FailingCalls;
use crate::{FileRead, Items, ReadStep, Sink, Source, Store, WriteStep};
use std::alloc::Global;
use std::marker::Model;

/// A wrapper that makes chosen calls fail, without calling the inner object. Calls count from 1.
/// The count of faults includes the failures of the inner object.
#[derive(Drop)]
pub struct Faulty<S> {
    pub(crate) inner: S,
    pub(crate) calls: FailingCalls,
}

impl<S> Model for Faulty<S> {
    ghost use Rattle.td_base.specs.Memory.{FaultyState};

    ghost Value = { FaultyState S };

    ghost view = { λ f. record { inner = f.inner; calls = f.calls } };
}

impl<S> Faulty<S> {
    /// Wraps the object; the calls with these numbers fail.
    pub fn new(inner: S, failing: Items<u64>) -> Faulty<S>
        ensures { result ≡ record {
          inner = inner;
          calls = record { failing = failing; calls = 0; faults = 0 };
        } }
    {
        let calls = FailingCalls::new(failing);
        Faulty { inner, calls }
    }

    /// The object inside.
    pub fn inner(&self) -> &S
        ensures { result.now ≡ self.now.inner }
    {
        &self.inner
    }
}

impl<S: Source> Source for Faulty<S> {
    ghost seen = { faulty_source S.seen };

    fn read(&mut self, room: &mut [u8]) -> ReadStep
        requires { 0 < length room.old }
        ensures read { Reads (faulty_source S.seen self.old) (faulty_source S.seen self.new)
            result room.new }
        ensures calls { self.new.calls ≡ counted self.old.calls (is_failed_read result) }
        ensures chosen { is_chosen self.old.calls ≡ true
            → (result ≡ ReadStep.Failed) × (self.new.inner ≡ self.old.inner) }
        ensures other { is_chosen self.old.calls ≡ false
            → Reads (S.seen self.old.inner) (S.seen self.new.inner) result room.new }
    {
        if self.calls.begin() {
            self.calls.count_fault();
            return ReadStep::Failed;
        }
        let step = self.inner.read(room);
        if step == ReadStep::Failed {
            self.calls.count_fault();
        }
        step
    }
}

impl<S: Sink> Sink for Faulty<S> {
    ghost seen = { faulty_sink S.seen };

    fn write(&mut self, piece: &[u8]) -> WriteStep
        requires { 0 < length piece.now }
        ensures write { Writes (faulty_sink S.seen self.old) (faulty_sink S.seen self.new)
            result piece.now }
        ensures calls { self.new.calls ≡ counted self.old.calls (is_failed_write result) }
        ensures chosen { is_chosen self.old.calls ≡ true
            → (result ≡ WriteStep.Failed) × (self.new.inner ≡ self.old.inner) }
        ensures other { is_chosen self.old.calls ≡ false
            → Writes (S.seen self.old.inner) (S.seen self.new.inner) result piece.now }
    {
        if self.calls.begin() {
            self.calls.count_fault();
            return WriteStep::Failed;
        }
        let step = self.inner.write(piece);
        if step == WriteStep::Failed {
            self.calls.count_fault();
        }
        step
    }
}

impl<S: Store> Store for Faulty<S> {
    ghost seen = { faulty_store S.seen };

    fn read_file(&mut self, alloc: Global, path: &[u8], most: u64) -> FileRead
        ensures look { Looks (faulty_store S.seen self.old) (faulty_store S.seen self.new)
            path.now most result }
        ensures calls { self.new.calls ≡ counted self.old.calls (is_failed_look result) }
        ensures chosen { is_chosen self.old.calls ≡ true
            → (result ≡ FileRead.Failed) × (self.new.inner ≡ self.old.inner) }
        ensures other { is_chosen self.old.calls ≡ false
            → Looks (S.seen self.old.inner) (S.seen self.new.inner) path.now most result }
    {
        if self.calls.begin() {
            self.calls.count_fault();
            return FileRead::Failed;
        }
        let found = self.inner.read_file(alloc, path, most);
        if let FileRead::Failed = &found {
            self.calls.count_fault();
        }
        found
    }
}
