//! Jobs in threads, with a foreground task in the caller's thread.
ghost use Rattle.std.specs.Prelude.{◌≡◌, ◌-◌, ◌<◌, ◌≤◌, [], map, vec_len};
ghost use Rattle.std.specs.Prelude.{All, false, IfOk};
ghost use Rattle.std.specs.Vec.{vec_capacity};
ghost use Rattle.td_base.specs.Works.{work_of};
ghost use Rattle.desk_pool.specs.Pool.{CountsRefusal, DoesEach, GivesResults, HasRefusal};
ghost use Rattle.desk_pool.specs.Pool.{IsStopped, LeavesBeside, LeavesSpawner};
ghost use Rattle.desk_pool.specs.Starting.{CountsStarts, StartsWorks, HasRefused};

use crate::beside::Beside;
use crate::pool_end::PoolEnd;
use crate::stops_by::StopsBy;
use std::alloc::Global;
use std::sync::Wait;
use std::thread::Threads;
use td_base::{NoMemory, Running, Spawner, Work};

/// Starts each job in order, runs the foreground task in the caller's thread, stops it, and joins
/// the jobs. If a job is refused, that one and the later ones are dropped, and the foreground task
/// is stopped without running. The vectors for the jobs are allocated before any of them is
/// started. The jobs stop only by the flag of the foreground task, so none of them ends early while
/// it still runs. Each job that was started is joined, whatever the result.
pub fn run_beside<W, S, M, R>(
    rt: &R,
    alloc: Global,
    spawner: &mut S,
    works: Vec<W>,
    beside: &mut M,
) -> PoolEnd<W::Done>
where
    W: Work + StopsBy + Send + Drop + 'static,
    W::Done: Send + Drop + 'static,
    S: Spawner,
    M: Beside,
    R: Threads + Wait + Copy + Send + 'static,
    requires goes_on { M.stopped beside.old ≡ false }
    requires flag { All (λ w. W.flag w ≡ M.flag beside.old) works.items }
    ensures results { GivesResults W.does works.items result }
    ensures beside { LeavesBeside M.ran M.halted beside.old beside.new result }
    ensures stopped { IsStopped (M.stopped beside.new) result }
    ensures refusal { HasRefusal (S.faults spawner.old) (S.faults spawner.new) result }
    ensures counts { CountsRefusal (S.faults spawner.old) (S.faults spawner.new) result }
    ensures joined { S.active spawner.new ≤ S.active spawner.old }
    ensures later { S.faults spawner.old ≤ S.faults spawner.new }
    ensures spawner { LeavesSpawner spawner.old spawner.new result }
{
    let Ok(room) = room_for(alloc, works.len()) else {
        return PoolEnd::NoMemory;
    };
    let Room { running, dones } = room;
    match start_each(rt, alloc, spawner, works, running) {
        Started::All(running) => {
            beside.run(rt);
            beside.stop();
            PoolEnd::All(join_each(rt, spawner, running, dones))
        }
        Started::Refused(running) => {
            beside.stop();
            PoolEnd::NotStarted(join_each(rt, spawner, running, dones))
        }
    }
}

/// Room for the running jobs, and for their results.
#[derive(Drop)]
struct Room<T, D> {
    running: Vec<T>,
    dones: Vec<D>,
}

fn room_for<T: Drop, D: Drop>(alloc: Global, works: usize) -> Result<Room<T, D>, NoMemory>
    ensures empty { IfOk result (λ r. (r.running.items ≡ []) × (r.dones.items ≡ [])) }
    ensures room { IfOk result
        (λ r. (works ≤ vec_capacity r.running) × (works ≤ vec_capacity r.dones)) }
{
    let running = Vec::with_capacity(alloc, works)?;
    let dones = Vec::with_capacity(alloc, works)?;
    Ok(Room { running, dones })
}

/// Which jobs were started.
#[derive(Drop)]
pub(crate) enum Started<T> {
    /// All of them.
    All(Vec<T>),
    /// One was refused. Those before it are running.
    Refused(Vec<T>),
}

/// Starts the jobs in order, up to the first that is refused.
#[tactic(auto, using(crate::proofs::PoolLemmas::are_first))]
fn start_each<W, S, R>(
    rt: &R,
    alloc: Global,
    spawner: &mut S,
    works: Vec<W>,
    room: Vec<Running<W>>,
) -> Started<Running<W>>
where
    W: Work + Send + Drop + 'static,
    W::Done: Send + Drop + 'static,
    S: Spawner,
    R: Threads + Wait + Copy + Send + 'static,
    requires empty { room.items ≡ [] }
    requires room { vec_len works ≤ vec_capacity room }
    ensures works { StartsWorks work_of works.items result }
    ensures refused { HasRefused (S.faults spawner.old) (S.faults spawner.new) result }
    ensures later { S.faults spawner.old ≤ S.faults spawner.new }
    ensures counts { CountsStarts (S.faults spawner.old) (S.faults spawner.new)
        (S.active spawner.old) (S.active spawner.new) result }
{
    let mut running = room;
    for work in works {
        match spawner.start(rt, alloc, work) {
            Ok(started) => running.push_reserved(started),
            Err(_) => return Started::Refused(running),
        }
    }
    Started::All(running)
}

/// Joins the running jobs, in order.
fn join_each<W, S, R>(
    rt: &R,
    spawner: &mut S,
    running: Vec<Running<W>>,
    room: Vec<W::Done>,
) -> Vec<W::Done>
where
    W: Work + Drop,
    W::Done: Drop,
    S: Spawner,
    R: Threads + Wait,
    requires empty { room.items ≡ [] }
    requires room { vec_len running ≤ vec_capacity room }
    ensures dones { DoesEach W.does (map work_of running.items) result.items }
    ensures later { S.faults spawner.old ≤ S.faults spawner.new }
    ensures steady { S.faults spawner.new ≡ S.faults spawner.old }
    ensures joined { S.active spawner.new ≡ S.active spawner.old - vec_len running }
{
    let mut dones = room;
    for running in running {
        dones.push_reserved(spawner.join(rt, running));
    }
    dones
}
