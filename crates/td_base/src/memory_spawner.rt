ghost use Rattle.std.specs.Prelude.{◌≡◌, ◌-◌, ◌≤◌};
ghost use Rattle.td_base.specs.Views.{Rose, one_more};
ghost use Rattle.td_base.specs.Works.{CountsBegin};

use crate::{Begin, Spawner};

/// A spawner that keeps a job and does it when it is joined. It never refuses to begin one, and
/// counts the calls of `refuse`.
#[derive(Clone, Copy, Drop)]
pub struct MemorySpawner {
    refused: u64,
    active: u64,
}

impl MemorySpawner {
    /// A spawner that has refused nothing.
    pub fn new() -> MemorySpawner
        ensures { result ≡ record { refused = 0; active = 0 } }
    {
        MemorySpawner {
            refused: 0,
            active: 0,
        }
    }
}

impl Spawner for MemorySpawner {
    ghost faults = { λ s. s.refused };

    ghost active = { λ s. s.active };

    fn begin(&mut self) -> Begin
        ensures later { self.old.refused ≤ self.new.refused }
        ensures refused { result ≡ Begin.Refused → Rose self.old.refused self.new.refused }
        ensures begins { result ≡ Begin.AtJoin }
        ensures counts { CountsBegin result self.old.refused self.new.refused
            self.old.active self.new.active }
    {
        self.active = self.active.saturating_add(1);
        Begin::AtJoin
    }

    fn refuse(&mut self)
        ensures later { self.old.refused ≤ self.new.refused }
        ensures rose { Rose self.old.refused self.new.refused }
        ensures once { self.new.refused ≡ one_more self.old.refused }
        ensures ends { self.new.active ≡ self.old.active - 1 }
    {
        self.refused = self.refused.saturating_add(1);
        self.active = self.active.saturating_sub(1);
    }

    fn count_join(&mut self)
        ensures steady { self.new.refused ≡ self.old.refused }
        ensures ends { self.new.active ≡ self.old.active - 1 }
    {
        self.active = self.active.saturating_sub(1);
    }
}
