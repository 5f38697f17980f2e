ghost use Rattle.td_base.specs.Works.{BeginsWork, work_of};

use crate::running::Running;
use crate::turn::{KeepsWork, Turn, run_or_return};
use crate::work::Work;
use std::alloc::Global;
use std::snapshot::Snapshot;
use std::sync::atomic::{AtomicBool, Ordering};
use std::sync::{Arc, Wait};
use std::thread::{Builder, Threads};

/// Starts a thread that does the job. The job is handed back when the system makes no thread or
/// when out of memory. After a refusal the system returns the closure, which gives back its job
/// only if it is called. A shared flag therefore says whether the call runs the job or returns it.
pub fn start_thread<W: Work + Send + Drop + 'static, R: Threads + Wait + Copy + Send + 'static>(
    rt: &R,
    alloc: Global,
    work: W,
) -> Result<Running<W>, W>
where
    W::Done: Send + Drop + 'static,
    ensures { BeginsWork work_of work result }
{
    start_by(Builder::new(), rt, alloc, work)
}

/// The same, with the settings of this thread builder.
pub fn start_by<W: Work + Send + Drop + 'static, R: Threads + Wait + Copy + Send + 'static>(
    builder: Builder,
    rt: &R,
    alloc: Global,
    work: W,
) -> Result<Running<W>, W>
where
    W::Done: Send + Drop + 'static,
    ensures { BeginsWork work_of work result }
{
    let Ok(refused) = Arc::new(alloc, AtomicBool::new(false)) else {
        return Err(work);
    };
    let Ok(word) = Arc::try_clone(&refused) else {
        return Err(work);
    };
    let rt = *rt;
    let promise = KeepsWork {
        work: Snapshot::of(&work),
    };
    match builder.spawn_with(&rt, promise, move || run_or_return(rt, work, word)) {
        Ok(handle) => Ok(Running::InThread(handle)),
        Err(closure) => {
            refused.store(true, Ordering::SeqCst);
            match (closure.value)() {
                Turn::Back(work) => Err(work),
                // Unreachable, since the flag was set above, but no clause says so.
                Turn::Ran(_) => {
                    for _ in rt.forever() {}
                    unreachable!()
                }
            }
        }
    }
}
