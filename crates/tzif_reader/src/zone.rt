//! The zone of a block without fault.

ghost use Rattle.std.specs.Prelude.{◌≡◌, ◌*◌, ◌+◌, ◌≤◌, length, IfOk, false, None};
ghost use Rattle.tzif_reader.specs.Cut.{items, transition_at, kind_at, leap_at, zone_from};
ghost use Rattle.td_base.specs.FirstFault.{least};
ghost use Rattle.tzif_reader.specs.Faults.{is_unnamed};
ghost use Rattle.tzif_reader.specs.Views.{parts_view, AreSized};

use crate::block::Block;
use crate::contents::name_of;
use crate::counts::Counts;
use crate::numbers::{long_at, short_at};
use crate::{LeapLine, ZoneFile};
use std::alloc::Global;
use td_base::{Bytes, Items, NoMemory, ShortText};
use td_civil::{Local, Moment};

#[tactic(auto, using(crate::proofs::Items::items_more))]
fn moments_of(alloc: Global, times: &[u8], timecnt: usize) -> Result<Items<Moment>, NoMemory>
    requires { length times.now ≡ 8 * timecnt }
    ensures { IfOk result (λ found. found ≡ items timecnt (transition_at times.now)) }
{
    let mut moments = Items::new(alloc);
    for i in 0..timecnt {
        let seconds = long_at(times, 8 * i);
        moments.push(Moment { seconds })?;
    }
    Ok(moments)
}

/// Type `i`, whose name is known to be valid.
fn kind_of(designations: &[u8], types: &[u8], i: usize) -> Local
    requires room { 6 * i + 6 ≤ length types.now }
    requires named { is_unnamed designations.now types.now i ≡ false }
    ensures { result ≡ kind_at designations.now types.now i }
{
    let mut name = ShortText::new();
    if let Some(text) = name_of(designations, types, i) {
        name.append(text);
    }
    Local {
        offset: short_at(types, 6 * i),
        dst: types[6 * i + 4] == 1,
        name,
    }
}

#[tactic(auto, using(crate::proofs::Items::items_more))]
fn kinds_of(
    alloc: Global,
    designations: &[u8],
    types: &[u8],
    typecnt: usize,
) -> Result<Items<Local>, NoMemory>
    requires room { length types.now ≡ 6 * typecnt }
    requires named { least typecnt (is_unnamed designations.now types.now) ≡ None }
    ensures { IfOk result (λ found. found ≡ items typecnt (kind_at designations.now types.now)) }
{
    let mut kinds = Items::new(alloc);
    for i in 0..typecnt {
        let kind = kind_of(designations, types, i);
        kinds.push(kind)?;
    }
    Ok(kinds)
}

#[tactic(auto, using(crate::proofs::Items::items_more))]
fn leaps_of(alloc: Global, leaps: &[u8], leapcnt: usize) -> Result<Items<LeapLine>, NoMemory>
    requires { length leaps.now ≡ 12 * leapcnt }
    ensures { IfOk result (λ found. found ≡ items leapcnt (leap_at leaps.now)) }
{
    let mut lines = Items::new(alloc);
    for i in 0..leapcnt {
        let at = long_at(leaps, 12 * i);
        let correction = short_at(leaps, 12 * i + 8);
        lines.push(LeapLine { at, correction })?;
    }
    Ok(lines)
}

/// The zone of a block and a footer that have no fault.
pub fn zone_from(
    alloc: Global,
    counts: &Counts,
    block: &Block,
    footer: &[u8],
) -> Result<ZoneFile, NoMemory>
    requires sized { AreSized counts.now (parts_view block.now) }
    requires named { least counts.now.typecnt
        (is_unnamed block.now.designations.now block.now.types.now) ≡ None }
    ensures { IfOk result (λ z. z ≡ zone_from counts.now (parts_view block.now) footer.now) }
{
    let moments = moments_of(alloc, block.times, counts.timecnt as usize)?;
    let numbers = Bytes::from_slice(alloc, block.numbers)?;
    let typecnt = counts.typecnt as usize;
    let kinds = kinds_of(alloc, block.designations, block.types, typecnt)?;
    let leaps = leaps_of(alloc, block.leaps, counts.leapcnt as usize)?;
    let footer = Bytes::from_slice(alloc, footer)?;
    Ok(ZoneFile {
        moments,
        numbers,
        kinds,
        leaps,
        footer,
    })
}
