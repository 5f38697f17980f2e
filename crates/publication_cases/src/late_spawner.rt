//! A spawner that starts no thread.
use td_base::{Begin, Spawner};

/// Runs each work when it is joined. It refuses one work, by its number from 1.
#[derive(Drop)]
pub struct LateSpawner {
    pub refused: u64,
    pub begun: u64,
    pub faults: u64,
    pub active: u64,
}

impl Spawner for LateSpawner {
    ghost faults = { λ s. s.faults };

    ghost active = { λ s. s.active };

    fn begin(&mut self) -> Begin {
        self.begun = self.begun.saturating_add(1);
        if self.begun == self.refused {
            self.faults = self.faults.saturating_add(1);
            return Begin::Refused;
        }
        self.active = self.active.saturating_add(1);
        Begin::AtJoin
    }

    fn refuse(&mut self) {
        self.faults = self.faults.saturating_add(1);
        self.active = self.active.saturating_sub(1);
    }

    fn count_join(&mut self) {
        self.active = self.active.saturating_sub(1);
    }
}
