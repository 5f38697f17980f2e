//! A foreground task that counts its calls.
use desk_pool::Beside;
use std::sync::Wait;

/// Counts its calls.
#[derive(Drop)]
pub struct Counted {
    pub runs: u32,
    pub stops: u32,
    pub stopped: bool,
}

impl Beside for Counted {
    ghost use Rattle.std.specs.Prelude.{◌≡◌};
    ghost use Rattle.publication_cases.specs.NoFlag.{no_flag};

    // The works next to it look at no flag.
    ghost flag = { λ c. no_flag };

    ghost stopped = { λ c. c.stopped };

    ghost ran = { λ before now. now.stops ≡ before.stops };

    ghost halted = { λ before now. now.runs ≡ before.runs };

    fn run<R: Wait>(&mut self, _rt: &R) {
        self.runs = self.runs.saturating_add(1);
    }

    fn stop(&mut self) {
        self.stops = self.stops.saturating_add(1);
        self.stopped = true;
    }
}
