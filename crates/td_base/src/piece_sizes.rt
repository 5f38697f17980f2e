ghost use Rattle.std.specs.Prelude.{◌≡◌, ◌<◌, [], drop};
ghost use Rattle.td_base.specs.Memory.{piece_size};

use crate::Items;
use std::alloc::Global;
use std::marker::Model;

/// The sizes in bytes of the pieces that an object in memory gives or takes, one per call. A size
/// of 0 counts as 1. When no size is left, a call moves as much as there is room for.
#[derive(Drop)]
pub struct PieceSizes {
    sizes: Items<usize>,
    at: usize,
}

impl Model for PieceSizes {
    ghost use Rattle.std.specs.Prelude.{◌≤◌, List, ℕ, drop, length};

    ghost Value = { List ℕ };

    ghost view = { λ p. drop p.at p.sizes };

    ghost invariant = { λ p. p.at ≤ length p.sizes };
}

impl PieceSizes {
    /// No sizes. It takes no memory.
    pub fn none(alloc: Global) -> PieceSizes
        ensures { result ≡ [] }
    {
        PieceSizes::new(Items::new(alloc))
    }

    /// These sizes.
    pub fn new(sizes: Items<usize>) -> PieceSizes
        ensures { result ≡ sizes }
    {
        PieceSizes { sizes, at: 0 }
    }

    /// How many bytes the next call moves, at most `most`.
    pub fn next(&mut self, most: usize) -> usize
        requires { 0 < most }
        ensures size { result ≡ piece_size self.old most }
        ensures left { self.new ≡ drop 1 self.old }
    {
        if self.at < self.sizes.len() {
            let size = self.sizes.as_slice()[self.at];
            self.at += 1;
            size.max(1).min(most)
        } else {
            most
        }
    }
}
