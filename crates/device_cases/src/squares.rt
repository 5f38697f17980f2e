//! Works in threads of the system.
ghost use Rattle.std.specs.Prelude.{◌≡◌, ◌*◌};

use crate::small::small;
use case_lines::{Answer, CaseFault, Row, debug_text};
use devices::RealSpawner;
use std::alloc::Global;
use std::sync::Wait;
use std::thread::Threads;
use td_base::{Spawner, Work};

/// The work to square a number.
#[derive(Drop)]
struct Square(u32);

impl Work for Square {
    type Done = u64;

    ghost does = { λ work done. done ≡ work.0 * work.0 };

    fn run<R: Wait>(self, _rt: &R) -> u64 {
        u64::from(self.0) * u64::from(self.0)
    }
}

/// `squares A B`: the squares of two numbers, each computed in a separate thread.
pub fn squares<R>(rt: &R, alloc: Global, row: &Row) -> Answer
where
    R: Threads + Wait + Copy + Send + 'static,
{
    let (first, second) = (small(row, 0)?, small(row, 1)?);
    match both(rt, alloc, first, second) {
        Some(squares) => debug_text(alloc, &squares),
        None => Err(CaseFault::NoMemory),
    }
}

/// Both squares, unless a thread could not be started.
fn both<R>(rt: &R, alloc: Global, first: u32, second: u32) -> Option<(u64, u64)>
where
    R: Threads + Wait + Copy + Send + 'static,
{
    let mut spawner = RealSpawner::new();
    let Ok(one) = spawner.start(rt, alloc, Square(first)) else {
        return None;
    };
    let Ok(other) = spawner.start(rt, alloc, Square(second)) else {
        let _ = spawner.join(rt, one);
        return None;
    };
    let first = spawner.join(rt, one);
    Some((first, spawner.join(rt, other)))
}
