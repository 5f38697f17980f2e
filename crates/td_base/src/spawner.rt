ghost use Rattle.std.specs.Prelude.{◌≡◌, ℕ, ◌-◌, ◌≤◌};
ghost use Rattle.td_base.specs.Views.{Rose, one_more};
ghost use Rattle.td_base.specs.Works.{CountsBegin, CountsStart, Starts, work_of};

use crate::running::Running;
use crate::start_thread::start_thread;
use crate::turn::Turn;
use crate::work::Work;
use std::alloc::Global;
use std::sync::Wait;
use std::thread::Threads;

/// How a [`Spawner`] begins a job.
#[derive(Clone, Copy, PartialEq, Eq)]
pub enum Begin {
    /// A separate thread does it.
    InThread,
    /// It is done at the join.
    AtJoin,
    /// It is not begun.
    Refused,
}

/// Starts and joins jobs. It decides how a job is begun. Contracts see how often it failed, and how
/// many jobs are active: begun, and not joined yet. Each count stops at the last value of 64 bits.
pub trait Spawner {
    ghost faults: { Self → ℕ };

    ghost active: { Self → ℕ };

    /// How the next job is begun. A refusal is counted.
    fn begin(&mut self) -> Begin
        ensures later { faults self.old ≤ faults self.new }
        ensures refused { result ≡ Begin.Refused → Rose (faults self.old) (faults self.new) }
        ensures counts { CountsBegin result (faults self.old) (faults self.new)
            (active self.old) (active self.new) };

    /// Counts a job for which no thread could be made. It is not active any more.
    fn refuse(&mut self)
        ensures later { faults self.old ≤ faults self.new }
        ensures rose { Rose (faults self.old) (faults self.new) }
        ensures once { faults self.new ≡ one_more (faults self.old) }
        ensures ends { active self.new ≡ active self.old - 1 };

    /// Counts a job that was joined.
    fn count_join(&mut self)
        ensures steady { faults self.new ≡ faults self.old }
        ensures ends { active self.new ≡ active self.old - 1 };

    /// Starts a job, or hands it back. It allocates only a few bytes, for a job in a thread.
    final fn start<W: Work + Send + Drop + 'static, R: Threads + Wait + Copy + Send + 'static>(
        &mut self,
        rt: &R,
        alloc: Global,
        work: W,
    ) -> Result<Running<W>, W>
    where
        W::Done: Send + Drop + 'static,
        ensures starts { Starts work_of (faults self.old) (faults self.new) work result }
        ensures counts { CountsStart (faults self.old) (faults self.new)
            (active self.old) (active self.new) result }
    {
        match self.begin() {
            Begin::InThread => match start_thread(rt, alloc, work) {
                Ok(running) => Ok(running),
                Err(work) => {
                    self.refuse();
                    Err(work)
                }
            },
            Begin::AtJoin => Ok(Running::AtJoin(work)),
            Begin::Refused => Err(work),
        }
    }

    /// Waits until the job is done, and returns its result.
    final fn join<W: Work, R: Threads + Wait>(&mut self, rt: &R, running: Running<W>) -> W::Done
        ensures does { W.does (work_of running) result }
        ensures later { faults self.old ≤ faults self.new }
        ensures steady { faults self.new ≡ faults self.old }
        ensures joined { active self.new ≡ active self.old - 1 }
    {
        self.count_join();
        match running {
            Running::InThread(handle) => match handle.join(rt) {
                Turn::Ran(done) => done,
                Turn::Back(work) => work.run(rt),
            },
            Running::AtJoin(work) => work.run(rt),
        }
    }
}
