ghost use Rattle.std.specs.Prelude.{◌≡◌, IfOk, map};
ghost use Rattle.catalogue.specs.HeldZones.{held_change};

use crate::entries::Held;
use change_index::{ChangeIndex, index};
use std::alloc::Global;
use std::sync::Arc;
use td_base::NoMemory;

/// The places at which the zones last changed, in the order of the zones.
fn last_changes<Z>(alloc: Global, held: &[Arc<Held<Z>>]) -> Result<Vec<u32>, NoMemory>
    ensures { IfOk result (λ r. r.items ≡ map held_change held.now) }
{
    let mut changes = Vec::with_capacity(alloc, held.len())?;
    for one in held {
        changes.push(one.entry.changed)?;
    }
    Ok(changes)
}

/// The index of these places.
pub fn index_changes<Z>(alloc: Global, held: &[Arc<Held<Z>>]) -> Result<ChangeIndex, NoMemory>
    ensures { IfOk result (λ i. i ≡ map held_change held.now) }
{
    let changes = last_changes(alloc, held)?;
    match index(alloc, changes.as_slice()) {
        Ok(index) => Ok(index),
        Err(_) => Err(NoMemory),
    }
}
