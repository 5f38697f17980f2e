ghost use Rattle.std.specs.Prelude.{◌≡◌, ◌≤◌, false};
ghost use Rattle.td_base.specs.Memory.{CallState, is_chosen, counted};
ghost use Rattle.td_base.specs.Views.{one_more};

use crate::Items;
use std::marker::Model;

/// Which calls on an object must fail, counted from 1, and how many calls were made and failed so
/// far. Both counts stop at their largest value.
#[derive(Drop)]
pub struct FailingCalls {
    failing: Items<u64>,
    calls: u64,
    faults: u64,
}

impl Model for FailingCalls {
    ghost use Rattle.td_base.specs.Memory.{CallState};

    ghost Value = { CallState };

    ghost view = { λ c. record { failing = c.failing; calls = c.calls; faults = c.faults } };
}

impl FailingCalls {
    /// No call was made yet; the calls with these numbers must fail.
    pub fn new(failing: Items<u64>) -> FailingCalls
        ensures { result ≡ record { failing = failing; calls = 0; faults = 0 } }
    {
        FailingCalls {
            failing,
            calls: 0,
            faults: 0,
        }
    }

    /// Counts a call, and returns whether it must fail.
    pub fn begin(&mut self) -> bool
        ensures chosen { result ≡ is_chosen self.old }
        ensures counted { self.new ≡ counted self.old false }
        ensures faults { self.new.faults ≡ self.old.faults }
    {
        self.calls = self.calls.saturating_add(1);
        self.failing.as_slice().contains(&self.calls)
    }

    /// Counts a fault.
    pub fn count_fault(&mut self)
        ensures counted { self.new ≡ record self.old { faults = one_more self.old.faults } }
        ensures faults { self.new.faults ≡ one_more self.old.faults }
        ensures later { self.old.faults ≤ self.new.faults }
    {
        self.faults = self.faults.saturating_add(1);
    }
}
