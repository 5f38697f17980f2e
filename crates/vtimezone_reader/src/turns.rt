//! The onsets of parts in a range, in rising order.
ghost use Rattle.std.specs.Prelude.{◌≡◌, ◌<◌, ◌≤ℤ◌, ◌<ℤ◌, ◌-ℤ◌, pos, length, slice_index_or, IfOk};
ghost use Rattle.std.specs.Prelude.{OnOk, Some};
ghost use Rattle.std.specs.Prelude.{max};
ghost use Rattle.std.specs.Ordering.{int_eq};
ghost use Rattle.std.specs.List.{AllByRecursion};
ghost use Rattle.std.specs.List.Sorted.{IsNonDecreasingBy};
ghost use Rattle.std.specs.Int.{int_max};
ghost use Rattle.vtimezone_reader.specs.Onsets as onsets;
ghost use Rattle.vtimezone_reader.specs.Sound.{IsSoundPart};
ghost use Rattle.vtimezone_reader.specs.Turns as spec;

use crate::onsets::{is_before, next_of_rule};
use recurrence::{Part, Rule};
use std::alloc::Global;
use td_base::NoMemory;
use td_civil::{HI, LO, Moment};

/// An onset, and the index of its part.
#[derive(Clone, Copy)]
pub struct PartOnset {
    pub onset: Moment,
    pub part: usize,
}

/// The onsets of all parts after a moment and before another, in rising order. It takes time for
/// these onsets, and for each part and its dates.
pub(crate) fn turns_between(
    alloc: Global,
    parts: &[Part],
    t: Moment,
    end: Moment,
) -> Result<Vec<PartOnset>, NoMemory>
    requires sound { AllByRecursion IsSoundPart parts.now }
    requires low { (LO -ℤ pos 1) ≤ℤ t.seconds }
    requires end { end.seconds ≤ℤ HI }
    ensures all { IfOk result (λ turns. spec.AreTurns
        parts.now (length parts.now) t.seconds end.seconds turns.items) }
    ensures rising { IfOk result (λ turns. IsNonDecreasingBy spec.since turns.items) }
{
    let mut turns = all_turns(alloc, parts, t, end)?;
    turns.sort_by_key(|turn| turn.onset.seconds.abs_diff(LO))?;
    Ok(turns)
}

/// The onsets of all parts, part by part.
fn all_turns(
    alloc: Global,
    parts: &[Part],
    t: Moment,
    end: Moment,
) -> Result<Vec<PartOnset>, NoMemory>
    requires sound { AllByRecursion IsSoundPart parts.now }
    requires low { (LO -ℤ pos 1) ≤ℤ t.seconds }
    requires end { end.seconds ≤ℤ HI }
    ensures { IfOk result (λ turns. spec.AreTurns
        parts.now (length parts.now) t.seconds end.seconds turns.items) }
{
    let mut turns = Vec::new(alloc);
    for (place, part) in parts.iter().enumerate() {
        add_part(&mut turns, place, part, t, end)?;
    }
    Ok(turns)
}

/// Adds the onsets of a part: its start, its dates, and those of its rule.
fn add_part(
    turns: &mut Vec<PartOnset>,
    place: usize,
    part: &Part,
    t: Moment,
    end: Moment,
) -> Result<(), NoMemory>
    requires sound { IsSoundPart part.now }
    requires low { (LO -ℤ pos 1) ≤ℤ t.seconds }
    requires end { end.seconds ≤ℤ HI }
    ensures { OnOk result (spec.AddsTurns (onsets.has_onset part.now)
        place t.seconds end.seconds turns.old.items turns.new.items) }
{
    add_one(turns, place, part.start, t, end)?;
    add_dates(turns, place, part.dates.as_slice(), t, end)?;
    add_rule(turns, place, part, t, end)?;
    Ok(())
}

/// Adds a moment, if it is after `t` and before the end.
fn add_one(
    turns: &mut Vec<PartOnset>,
    place: usize,
    moment: Moment,
    t: Moment,
    end: Moment,
) -> Result<(), NoMemory>
    ensures { OnOk result (spec.AddsTurns (λ v. int_eq moment.seconds v)
        place t.seconds end.seconds turns.old.items turns.new.items) }
{
    if !is_before(t, moment) {
        return Ok(());
    }
    if !is_before(moment, end) {
        return Ok(());
    }
    turns.push(PartOnset {
        onset: moment,
        part: place,
    })?;
    Ok(())
}

fn add_dates(
    turns: &mut Vec<PartOnset>,
    place: usize,
    dates: &[Moment],
    t: Moment,
    end: Moment,
) -> Result<(), NoMemory>
    ensures { OnOk result (spec.AddsTurns (onsets.is_among dates.now)
        place t.seconds end.seconds turns.old.items turns.new.items) }
{
    for date in dates {
        add_one(turns, place, *date, t, end)?;
    }
    Ok(())
}

/// Adds the onsets of the part's rule after its start, if it has one.
fn add_rule(
    turns: &mut Vec<PartOnset>,
    place: usize,
    part: &Part,
    t: Moment,
    end: Moment,
) -> Result<(), NoMemory>
    requires sound { IsSoundPart part.now }
    requires low { (LO -ℤ pos 1) ≤ℤ t.seconds }
    requires end { end.seconds ≤ℤ HI }
    ensures { OnOk result (spec.AddsTurns (spec.falls_later part.now)
        place t.seconds end.seconds turns.old.items turns.new.items) }
{
    match &part.rule {
        None => Ok(()),
        Some(rule) => add_later(turns, place, part, rule, t, end),
    }
}

/// Adds the onsets of a rule after the part's start.
fn add_later(
    turns: &mut Vec<PartOnset>,
    place: usize,
    part: &Part,
    rule: &Rule,
    t: Moment,
    end: Moment,
) -> Result<(), NoMemory>
    requires sound { IsSoundPart part.now }
    requires rule { part.now.rule ≡ Some rule.now }
    requires low { (LO -ℤ pos 1) ≤ℤ t.seconds }
    requires end { end.seconds ≤ℤ HI }
    ensures { OnOk result (spec.AddsTurns (spec.falls_later part.now)
        place t.seconds end.seconds turns.old.items turns.new.items) }
{
    let from = later(t, part.start);
    if !is_before(from, end) {
        return Ok(());
    }
    add_falls(turns, place, part, rule, from, end)?;
    Ok(())
}

/// The later of two moments.
pub(crate) fn later(a: Moment, b: Moment) -> Moment
    ensures { result.seconds ≡ int_max a.seconds b.seconds }
{
    if a.seconds < b.seconds { b } else { a }
}

/// Adds the onsets of a rule after a moment that is not before the part's start.
fn add_falls(
    turns: &mut Vec<PartOnset>,
    place: usize,
    part: &Part,
    rule: &Rule,
    from: Moment,
    end: Moment,
) -> Result<(), NoMemory>
    requires sound { IsSoundPart part.now }
    requires rule { part.now.rule ≡ Some rule.now }
    requires from { part.now.start.seconds ≤ℤ from.seconds }
    requires range { from.seconds <ℤ end.seconds }
    requires end { end.seconds ≤ℤ HI }
    ensures { OnOk result (spec.AddsTurns (onsets.is_rule_onset part.now rule.now)
        place from.seconds end.seconds turns.old.items turns.new.items) }
{
    let mut at = from;
    'onsets: while let Some(next) = next_of_rule(part, rule, at, end) {
        turns.push(PartOnset {
            onset: next,
            part: place,
        })?;
        at = next;
    }
    Ok(())
}

/// Groups the turns at one moment, of which the first has the given index. Returns the later part
/// that has an onset then, and the index after the last of these turns.
pub(crate) fn together(turns: &[PartOnset], from: usize) -> (usize, usize)
    requires { from < length turns.now }
    ensures turns { (d : PartOnset) → spec.AreTogether turns.now from result.1
        (slice_index_or turns.now from d).onset.seconds result.0 }
    ensures after { from < result.1 }
{
    let first = nth(turns, from);
    let mut part = first.part;
    let mut to = from + 1;
    'turns: while to < turns.len() {
        let turn = nth(turns, to);
        if !is_at(turn, first) {
            return (part, to);
        }
        part = later_part(part, turn.part);
        to += 1;
    }
    (part, to)
}

pub(crate) fn nth(turns: &[PartOnset], place: usize) -> PartOnset
    requires { place < length turns.now }
    ensures { result ≡ slice_index_or turns.now place result }
{
    turns[place]
}

fn is_at(turn: PartOnset, first: PartOnset) -> bool
    ensures { result ≡ int_eq turn.onset.seconds first.onset.seconds }
{
    turn.onset.seconds == first.onset.seconds
}

fn later_part(a: usize, b: usize) -> usize
    ensures { result ≡ max a b }
{
    if a < b { b } else { a }
}
