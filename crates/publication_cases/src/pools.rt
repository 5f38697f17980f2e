//! Works next to a foreground task on the caller's thread.
ghost use Rattle.std.specs.Prelude.{◌≡◌};

use crate::counted::Counted;
use crate::late_spawner::LateSpawner;
use case_lines::{Answer, Row};
use desk_pool::{PoolEnd, StopsBy, run_beside};
use std::alloc::Global;
use std::sync::Wait;
use std::thread::Threads;
use td_base::{NoMemory, Work};

/// A work that returns its number.
#[derive(Drop)]
struct Numbered {
    number: u64,
}

impl Work for Numbered {
    type Done = u64;

    ghost does = { λ w d. d ≡ w.number };

    fn run<R: Wait>(self, _rt: &R) -> u64 {
        self.number
    }
}

impl StopsBy for Numbered {
    ghost use Rattle.publication_cases.specs.NoFlag.{no_flag};

    ghost flag = { λ w. no_flag };
}

/// `works NUMBER REFUSED`: the results of NUMBER works, each of which returns its number from 1,
/// when the start REFUSED is refused. Then how often the foreground task ran and was stopped.
pub fn works<R>(rt: &R, alloc: Global, row: &Row) -> Answer
where
    R: Threads + Wait + Copy + Send + 'static,
{
    let (number, refused) = (row.number(0)?, row.number(1)?);
    let works = works_of(alloc, number)?;
    let (end, runs, stops) = outcome(rt, alloc, works, refused);
    Ok(format!(in alloc; "{end:?} {runs} {stops}")?.into_bytes())
}

fn works_of(alloc: Global, most: u64) -> Result<Vec<Numbered>, NoMemory> {
    let mut works = Vec::new(alloc);
    for number in 1..most.saturating_add(1) {
        works.push(Numbered { number })?;
    }
    Ok(works)
}

fn outcome<R>(rt: &R, alloc: Global, works: Vec<Numbered>, refused: u64) -> (PoolEnd<u64>, u32, u32)
where
    R: Threads + Wait + Copy + Send + 'static,
{
    let mut spawner = LateSpawner {
        refused,
        begun: 0,
        faults: 0,
        active: 0,
    };
    let mut beside = Counted {
        runs: 0,
        stops: 0,
        stopped: false,
    };
    let end = run_beside(rt, alloc, &mut spawner, works, &mut beside);
    (end, beside.runs, beside.stops)
}
