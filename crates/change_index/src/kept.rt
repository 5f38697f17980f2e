ghost use Rattle.std.specs.Prelude.{◌≡◌, ◌≤◌, ◌-◌, IfOk, drop, filter, length, map, nat_lt};
ghost use Rattle.change_index.specs.Keeping.{kept_of, numbers_of};
ghost use Rattle.change_index.specs.Orders.{rising_by_number};
ghost use Rattle.change_index.specs.Positions.{positions};

use crate::{NoMemory, Placed};
use std::alloc::Global;
use std::marker::Model;

/// An index of a list of numbers.
#[derive(Drop)]
pub struct ChangeIndex {
    /// Each number with its position, in rising order of the numbers.
    pub(crate) kept: Vec<Placed>,
}

impl Model for ChangeIndex {
    ghost use Rattle.std.specs.Prelude.{◌≡◌, List, ℕ};
    ghost use Rattle.change_index.specs.Keeping.{kept_of, numbers_of};

    ghost Value = { List ℕ };

    ghost view = { λ i. numbers_of i.kept.items };

    ghost invariant = { λ i. i.kept.items ≡ kept_of (numbers_of i.kept.items) };
}

impl ChangeIndex {
    /// The entries with a number above this one, by a binary search. It does not allocate.
    pub fn after(&self, n: u32) -> &[Placed]
        ensures above { result.now ≡ filter (λ p. nat_lt n p.change) (kept_of self.now) }
        ensures suffix { result.now
            ≡ drop (length (kept_of self.now) - length result.now) (kept_of self.now) }
    {
        let kept = self.kept.as_slice();
        &kept[first_above(kept, n)..]
    }

    /// The positions, in rising order, of the numbers above this one. After a binary search, the
    /// cost depends only on the number of results.
    pub fn positions_after(&self, alloc: Global, n: u32) -> Result<Vec<usize>, NoMemory>
        ensures { IfOk result (λ r. r.items ≡ positions (λ change. nat_lt n change) 0 self.now) }
    {
        let positions = rising(places(alloc, self.after(n))?)?;
        Ok(positions)
    }
}

/// The index of the first entry with a number above this one, or the length if none is above it.
fn first_above(kept: &[Placed], n: u32) -> usize
    requires { kept.now ≡ kept_of (numbers_of kept.now) }
    ensures within { result ≤ length kept.now }
    ensures above { filter (λ p. nat_lt n p.change) kept.now ≡ drop result kept.now }
{
    kept.partition_point(|placed| placed.change <= n)
}

/// The positions of the entries, in the order of the entries.
fn places(alloc: Global, kept: &[Placed]) -> Result<Vec<usize>, NoMemory>
    ensures { IfOk result (λ r. r.items ≡ map (λ p. p.at) kept.now) }
{
    let mut places = Vec::with_capacity(alloc, kept.len())?;
    for placed in kept {
        places.push(placed.at)?;
    }
    Ok(places)
}

/// Sorts the positions in rising order.
fn rising(places: Vec<usize>) -> Result<Vec<usize>, NoMemory>
    ensures { IfOk result (λ r. r.items ≡ rising_by_number (λ place. place) places.items) }
{
    let mut sorted = places;
    sorted.sort()?;
    Ok(sorted)
}
