ghost use Rattle.std.specs.Prelude.{◌≡◌, Some, None, true, false};
ghost use Rattle.td_base.specs.Doors.{Accepts, Finishes, HasOut, answer_of, is_failed_accept};
ghost use Rattle.td_base.specs.Memory.{counted, is_chosen};
ghost use Rattle.td_base.specs.MemoryDoors.{faulty_door};

use crate::failing_calls::FailingCalls;
use crate::{Accepted, Door, DoorAnswer, Items, Report};
use std::marker::Model;

/// A door that makes chosen calls of `accept` fail, without calling the inner one. Calls count from
/// 1. The count of faults includes the failures of the inner door.
#[derive(Drop)]
pub struct FaultyDoor<D> {
    inner: D,
    calls: FailingCalls,
    last: Option<DoorAnswer>,
}

impl<D> Model for FaultyDoor<D> {
    ghost use Rattle.td_base.specs.MemoryDoors.{FaultyDoorState};

    ghost Value = { FaultyDoorState D };

    ghost view = { λ f. record { inner = f.inner; calls = f.calls; last = f.last } };
}

impl<D> FaultyDoor<D> {
    /// Wraps the door; the calls of `accept` with these numbers fail.
    pub fn new(inner: D, failing: Items<u64>) -> FaultyDoor<D>
        ensures { result ≡ record {
          inner = inner;
          calls = record { failing = failing; calls = 0; faults = 0 };
          last = None;
        } }
    {
        let calls = FailingCalls::new(failing);
        FaultyDoor {
            inner,
            calls,
            last: None,
        }
    }

    /// The door inside.
    pub fn inner(&self) -> &D
        ensures { result.now ≡ self.now.inner }
    {
        &self.inner
    }
}

impl<D: Door> Door for FaultyDoor<D> {
    type Conn = D::Conn;

    ghost seen = { faulty_door D.seen };

    fn accept(&mut self) -> Accepted<D::Conn>
        ensures accepts { Accepts D.Conn.seen (faulty_door D.seen self.old)
            (faulty_door D.seen self.new) result }
        ensures calls { self.new.calls ≡ counted self.old.calls (is_failed_accept result) }
        ensures chosen { is_chosen self.old.calls ≡ true
            → (result ≡ Accepted.Failed) × (self.new.inner ≡ self.old.inner) }
        ensures other { is_chosen self.old.calls ≡ false
            → Accepts D.Conn.seen (D.seen self.old.inner) (D.seen self.new.inner) result }
    {
        if self.calls.begin() {
            self.calls.count_fault();
            self.last = Some(DoorAnswer::Failed);
            return Accepted::Failed;
        }
        let accepted = self.inner.accept();
        if let Accepted::Failed = &accepted {
            self.calls.count_fault();
        }
        self.last = Some(answer(&accepted));
        accepted
    }

    fn finish(&mut self, conn: D::Conn, report: Report)
        requires { HasOut (faulty_door D.seen self.old) }
        ensures finishes { Finishes (faulty_door D.seen self.old) (faulty_door D.seen self.new)
            (D.Conn.seen conn) report }
        ensures calls { self.new.calls ≡ self.old.calls }
        ensures inner { Finishes (D.seen self.old.inner) (D.seen self.new.inner)
            (D.Conn.seen conn) report }
    {
        self.inner.finish(conn, report);
    }
}

/// Which answer this is.
fn answer<C>(accepted: &Accepted<C>) -> DoorAnswer
    ensures { result ≡ answer_of accepted.now }
{
    match accepted {
        Accepted::Given(_) => DoorAnswer::Given,
        Accepted::Idle => DoorAnswer::Idle,
        Accepted::Ended => DoorAnswer::Ended,
        Accepted::Failed => DoorAnswer::Failed,
    }
}
