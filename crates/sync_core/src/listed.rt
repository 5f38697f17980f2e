ghost use Rattle.std.specs.Prelude.{◌≡◌, map, IfOk};
ghost use Rattle.sync_core.specs.Keeping.{by_name};
ghost use Rattle.sync_core.specs.Mirrors.{entry_name};
ghost use Rattle.sync_core.specs.Steps.{rising_zones};

use json_forms::ListZone;
use std::alloc::Global;
use std::collections::{BTreeMap, VecDeque};
use td_base::{Bytes, Items, NoMemory};

/// The zones of a list in rising order, and their identifiers.
#[derive(Drop)]
pub struct Listed {
    pub zones: Vec<ListZone>,
    pub names: VecDeque<Bytes>,
}

/// The zones of a list in rising order. If an identifier repeats, the later zone counts.
pub fn in_order(alloc: Global, zones: Items<ListZone>) -> Result<Listed, NoMemory>
    ensures zones { IfOk result (λ r. r.zones.items ≡ rising_zones zones) }
    ensures names { IfOk result (λ r. r.names.items ≡ map entry_name (rising_zones zones)) }
{
    let mut sorted = sorted(alloc, zones)?;
    let mut listed = Listed {
        zones: Vec::new(alloc),
        names: VecDeque::new(alloc),
    };
    while let Some((name, zone)) = sorted.pop_first() {
        listed.zones.push(zone)?;
        listed.names.push_back(name)?;
    }
    Ok(listed)
}

/// The zones by their identifiers.
fn sorted(alloc: Global, zones: Items<ListZone>) -> Result<BTreeMap<Bytes, ListZone>, NoMemory>
    ensures { IfOk result (λ sorted. sorted.entries ≡ by_name (rising_zones zones)) }
{
    let mut sorted = BTreeMap::new(alloc);
    for zone in zones.into_vec() {
        let _ = sorted.insert(zone.tzid.clone_in(alloc)?, zone)?;
    }
    Ok(sorted)
}
