ghost use Rattle.td_base.specs.Turns.{KeepsTurn};

use crate::work::Work;
use std::alloc::Global;
use std::snapshot::Snapshot;
use std::sync::atomic::{AtomicBool, Ordering};
use std::sync::{Arc, Wait};
use std::thread::Promise;

/// What the closure of a thread returns: the result of its job, or the job itself.
#[derive(Drop)]
pub enum Turn<W, D> {
    Ran(D),
    Back(W),
}

/// The promise of such a closure: a result as the job promises, or the job itself.
#[derive(Drop)]
pub struct KeepsWork<W> {
    pub work: Snapshot<W>,
}

impl<W: Work> Promise<Turn<W, W::Done>> for KeepsWork<W> {
    ghost kept_by = { λ p turn. KeepsTurn W.does p.work.value turn };
}

/// Does the job, unless the flag says that no thread was made for it.
pub fn run_or_return<W: Work, R: Wait + Drop>(
    rt: R,
    work: W,
    refused: Arc<AtomicBool, Global>,
) -> Turn<W, W::Done>
    ensures { KeepsTurn W.does work result }
{
    if refused.load(Ordering::SeqCst) {
        Turn::Back(work)
    } else {
        Turn::Ran(work.run(&rt))
    }
}
