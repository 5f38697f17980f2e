//! Works that run in threads, or when they are joined.
ghost use Rattle.std.specs.Prelude.{◌≡◌, ◌*◌, IfOk, IfErr};

use crate::given;
use case_lines::{Answer, AnswerBuilder, Row, debug_text};
use std::alloc::Global;
use std::sync::Wait;
use std::thread::{Builder, Threads};
use td_base::{Begin, Faulty, MemorySpawner, Spawner, Work, start_by};

/// A work that doubles its number.
#[derive(Drop)]
struct Doubling {
    number: u32,
}

impl Work for Doubling {
    type Done = u64;

    ghost does = { λ work done. done ≡ 2 * work.number };

    fn run<R: Wait>(self, _rt: &R) -> u64 {
        u64::from(self.number) * 2
    }
}

/// `joined-work FAILING NUMBER ..`: the results of doubling each number when works run as they are
/// joined. The works whose starts are in FAILING are handed back.
pub fn join_works<R: Threads + Wait + Copy + Send + 'static>(
    rt: &R,
    alloc: Global,
    row: &Row,
) -> Answer {
    let failing = given::calls(alloc, row, 0)?;
    let mut spawner = Faulty::new(MemorySpawner::new(), failing);
    let mut builder = AnswerBuilder::new(alloc);
    for at in 1..row.words().len() {
        builder.add_answer(double_at(rt, alloc, &mut spawner, row, at));
    }
    builder.finish()
}

/// The result of doubling the number at a position.
fn double_at<S: Spawner, R: Threads + Wait + Copy + Send + 'static>(
    rt: &R,
    alloc: Global,
    spawner: &mut S,
    row: &Row,
    at: usize,
) -> Answer {
    let number = given::small(row, at)?;
    debug_text(alloc, &double(rt, alloc, spawner, number))
}

/// `threaded-work NUMBER`: the result of doubling it in a thread.
pub fn work_in_thread<R: Threads + Wait + Copy + Send + 'static>(
    rt: &R,
    alloc: Global,
    row: &Row,
) -> Answer {
    let number = given::small(row, 0)?;
    let mut spawner = ThreadSpawner::new();
    let mut builder = AnswerBuilder::new(alloc);
    builder.add_debug(&double(rt, alloc, &mut spawner, number));
    builder.add_bytes(b", ");
    builder.add_debug(&spawner.refused);
    builder.add_bytes(b" refused");
    builder.finish()
}

/// `refused-work NUMBER`: the result of doubling it in a thread whose stack would need all memory.
pub fn work_without_memory<R: Threads + Wait + Copy + Send + 'static>(
    rt: &R,
    alloc: Global,
    row: &Row,
) -> Answer {
    let number = given::small(row, 0)?;
    let huge = Builder::new().stack_size(usize::MAX);
    let back = match start_by(huge, rt, alloc, Doubling { number }) {
        Ok(running) => Ok(ThreadSpawner::new().join(rt, running)),
        Err(work) => Err(work.number),
    };
    debug_text(alloc, &back)
}

/// A spawner that starts each work in a thread, and counts those for which none could be made.
#[derive(Drop)]
struct ThreadSpawner {
    refused: u64,
    active: u64,
}

impl ThreadSpawner {
    /// A spawner that has started nothing.
    fn new() -> ThreadSpawner {
        ThreadSpawner {
            refused: 0,
            active: 0,
        }
    }
}

impl Spawner for ThreadSpawner {
    ghost faults = { λ s. s.refused };

    ghost active = { λ s. s.active };

    fn begin(&mut self) -> Begin {
        self.active = self.active.saturating_add(1);
        Begin::InThread
    }

    fn refuse(&mut self) {
        self.refused = self.refused.saturating_add(1);
        self.active = self.active.saturating_sub(1);
    }

    fn count_join(&mut self) {
        self.active = self.active.saturating_sub(1);
    }
}

/// The result of doubling a number: the double, or the number if the work was handed back.
fn double<S: Spawner, R: Threads + Wait + Copy + Send + 'static>(
    rt: &R,
    alloc: Global,
    spawner: &mut S,
    number: u32,
) -> Result<u64, u32>
    ensures done { IfOk result (λ done. done ≡ 2 * number) }
    ensures back { IfErr result (λ back. back ≡ number) }
{
    match do_one(rt, alloc, spawner, Doubling { number }) {
        Ok(done) => Ok(done),
        Err(back) => Err(back.number),
    }
}

/// Starts a work and joins it.
fn do_one<W, S, R>(rt: &R, alloc: Global, spawner: &mut S, work: W) -> Result<W::Done, W>
where
    W: Work + Send + Drop + 'static,
    W::Done: Send + Drop + 'static,
    S: Spawner,
    R: Threads + Wait + Copy + Send + 'static,
    ensures done { IfOk result (λ done. W.does work done) }
    ensures back { IfErr result (λ back. back ≡ work) }
{
    match spawner.start(rt, alloc, work) {
        Ok(running) => Ok(spawner.join(rt, running)),
        Err(back) => Err(back),
    }
}
