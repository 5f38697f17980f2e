ghost use Rattle.std.specs.Prelude.{◌≡◌, true, false, Bool};
ghost use Rattle.atomic_table.specs.Seated.{TableId};

use std::sync::Wait;

/// A foreground task: what the caller's thread does while jobs run in other threads, and how it is
/// stopped. It owns the flag that stops those jobs.
pub trait Beside {
    ghost flag: { Self → TableId };

    ghost stopped: { Self → Bool };

    ghost ran: { Self → Self → Type 0 };

    ghost halted: { Self → Self → Type 0 };

    /// Runs the task. It may wait for input and output.
    fn run<R: Wait>(&mut self, rt: &R)
        requires { stopped self.old ≡ false }
        ensures ran { ran self.old self.new }
        ensures goes_on { stopped self.new ≡ false }
        ensures flag { flag self.new ≡ flag self.old };

    /// Stops the task and raises the flag. It is called before the jobs are joined.
    fn stop(&mut self)
        ensures halted { halted self.old self.new }
        ensures stopped { stopped self.new ≡ true }
        ensures flag { flag self.new ≡ flag self.old };
}
