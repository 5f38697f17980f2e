//! Parts for the changes of a zone. Changes that differ only in their moments share one part.
ghost use Rattle.std.specs.Prelude.{◌≡◌, ◌<◌, length, IfOk, IfSome, OnOk};
ghost use Rattle.zone_meaning.specs.Observed.{observed, IsRange};
ghost use Rattle.zone_meaning.specs.State.{zone_state};
ghost use Rattle.vtimezone.specs.Gathering as spec;
ghost use Rattle.vtimezone.specs.Grouping.{grouped};

use crate::Part;
use recurrence::Moments;
use std::alloc::Global;
use td_base::{Items, NoMemory};
use td_civil::{Moment, Observance};
use zone_meaning::{Changes, Zone};

/// The parts of the changes from a moment to before another.
pub(crate) fn change_parts(
    alloc: Global,
    zone: &Zone,
    from: Moment,
    end: Moment,
) -> Result<Items<Part>, NoMemory>
    requires { IsRange from.seconds end.seconds }
    ensures { IfOk result (λ parts. parts
        ≡ grouped (observed (zone_state zone.now) from.seconds end.seconds)) }
{
    let mut rest = Changes::new(zone, from, end);
    let mut parts = Vec::new(alloc);
    while let Some(change) = rest.next() {
        join(alloc, &mut parts, change)?;
    }
    Ok(Items::from(parts))
}

/// Adds a change to the part of the same changes at other moments, or else as a new part. A zone
/// has few kinds of changes, however many changes there are, so the parts are searched from the
/// beginning.
fn join(alloc: Global, parts: &mut Vec<Part>, change: Observance) -> Result<(), NoMemory>
    ensures { OnOk result (parts.new.items ≡ spec.parts_joined parts.old.items change) }
{
    match place_of(parts.as_slice(), &change) {
        Some(place) => {
            parts[place].dates.push(change.onset)?;
            Ok(())
        }
        None => {
            parts.push(part_alone(alloc, change))?;
            Ok(())
        }
    }
}

/// The index of the first part of the same changes as this one, apart from their moments, if it
/// exists.
fn place_of(parts: &[Part], change: &Observance) -> Option<usize>
    ensures place { result ≡ spec.place_from 0 parts.now change.now }
    ensures inside { IfSome result (λ place. place < length parts.now) }
{
    for (at, part) in parts.iter().enumerate() {
        if is_of(part, change) {
            return Some(at);
        }
    }
    None
}

/// Whether the part is one of the same changes as this one, apart from their moments.
#[tactic(auto, unfolding(crate::specs::Gathering::is_of, td_civil::specs::SameLocal::same_local))]
fn is_of(part: &Part, change: &Observance) -> bool
    ensures { result ≡ spec.is_of part.now change.now }
{
    part.from == change.from
        && (part.to == change.to && (part.dst == change.dst && part.name == change.name))
}

/// The part of a single change.
#[tactic(auto, unfolding(crate::specs::Gathering::part_alone))]
fn part_alone(alloc: Global, change: Observance) -> Part
    ensures { result ≡ spec.part_alone change }
{
    Part {
        dst: change.dst,
        start: change.onset,
        from: change.from,
        to: change.to,
        name: change.name,
        rule: None,
        until: None,
        dates: Moments::new(alloc),
    }
}
