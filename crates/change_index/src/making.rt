ghost use Rattle.std.specs.Prelude.{◌≡◌, IfOk};
ghost use Rattle.change_index.specs.Keeping.{placed_from};
ghost use Rattle.change_index.specs.Orders.{rising_by_number};

use crate::{ChangeIndex, NoMemory, Placed};
use std::alloc::Global;

/// Makes the index of a list of numbers. Fails only when out of memory.
pub fn index(alloc: Global, changes: &[u32]) -> Result<ChangeIndex, NoMemory>
    ensures { IfOk result (λ i. i ≡ changes.now) }
{
    let kept = rising(placed(alloc, changes)?)?;
    Ok(ChangeIndex { kept })
}

/// Pairs each number with its position.
fn placed(alloc: Global, changes: &[u32]) -> Result<Vec<Placed>, NoMemory>
    ensures { IfOk result (λ r. r.items ≡ placed_from 0 changes.now) }
{
    let mut placed = Vec::with_capacity(alloc, changes.len())?;
    for at in 0..changes.len() {
        let change = changes[at];
        placed.push(Placed { change, at })?;
    }
    Ok(placed)
}

/// Sorts the entries by rising numbers. Equal numbers keep their order.
fn rising(placed: Vec<Placed>) -> Result<Vec<Placed>, NoMemory>
    ensures { IfOk result (λ r. r.items ≡ rising_by_number (λ p. p.change) placed.items) }
{
    let mut kept = placed;
    kept.sort_by_key(|placed| placed.change)?;
    Ok(kept)
}
