//! The observances of a range, written. The rules of a zone repeat with the calendar, so what they
//! give is computed for one period of it, and written again for each later one.
ghost use Rattle.std.specs.Prelude.{◌≡◌, [], ◌∷◌, ◌+ℤ◌, ◌≤ℤ◌, ◌<ℤ◌, IfOk, OnOk, pos, map};
ghost use Rattle.std.specs.List.{AllByRecursion};
ghost use Rattle.td_civil.specs.Bounds.{HasMeaning};
ghost use Rattle.td_civil.specs.Cycles.{RepeatsFrom, observance_later};
ghost use Rattle.td_civil.specs.declared.moment_type.TheConstants.{CYCLE, HI};
ghost use Rattle.json_forms.specs.Begun.{Appends};
ghost use Rattle.json_forms.specs.PlainTexts.{IsPlainObservance};
ghost use Rattle.zone_meaning.specs.Observed.{changes_between, observed, IsRange};
ghost use Rattle.zone_meaning.specs.Sound.{IsSoundFile};
ghost use Rattle.zone_meaning.specs.State.{zone_state};
ghost use Rattle.actions.specs.Periods.{IsPutTo};

use json_forms::{ExpansionWriter, ObservanceText};
use std::alloc::Global;
use std::collections::VecDeque;
use td_base::NoMemory;
use td_civil::{CYCLE, Moment};
use zone_meaning::{Changes, Zone, repeats_from};

/// Writes the observances from a moment to before another.
pub fn put_observed(
    alloc: Global,
    text: &mut ExpansionWriter,
    zone: &Zone,
    from: Moment,
    until: Moment,
) -> Result<(), NoMemory>
    requires sound { IsSoundFile zone.now }
    requires range { IsRange from.seconds until.seconds }
    ensures { OnOk result
        (Appends text.old text.new (observed (zone_state zone.now) from.seconds until.seconds)) }
{
    let start = later(from, repeats_from(zone));
    if start.seconds + CYCLE < until.seconds {
        return put_in_parts(alloc, text, zone, from, start, until);
    }
    put_changes(text, Changes::new(zone, from, until))
}

/// The same in three parts: up to a start, from which on the state repeats, then by whole periods,
/// and at last what is left.
fn put_in_parts(
    alloc: Global,
    text: &mut ExpansionWriter,
    zone: &Zone,
    from: Moment,
    start: Moment,
    until: Moment,
) -> Result<(), NoMemory>
    requires sound { IsSoundFile zone.now }
    requires range { IsRange from.seconds until.seconds }
    requires low { from.seconds ≤ℤ start.seconds }
    requires meaning { HasMeaning start.seconds }
    requires period { (start.seconds +ℤ CYCLE) <ℤ until.seconds }
    requires repeats { RepeatsFrom (zone_state zone.now) start.seconds }
    ensures { OnOk result
        (Appends text.old text.new (observed (zone_state zone.now) from.seconds until.seconds)) }
{
    put_changes(text, Changes::new(zone, from, second_after(start)))?;
    let end = put_periods(alloc, text, zone, start, until)?;
    put_changes(text, Changes::after(zone, end, until))?;
    Ok(())
}

/// The later of two moments.
fn later(one: Moment, two: Moment) -> Moment
    ensures first { one.seconds ≤ℤ result.seconds }
    ensures second { two.seconds ≤ℤ result.seconds }
    ensures meaning { HasMeaning one.seconds → HasMeaning two.seconds → HasMeaning result.seconds }
{
    if one.seconds <= two.seconds { two } else { one }
}

/// The next second.
fn second_after(moment: Moment) -> Moment
    requires { HasMeaning moment.seconds }
    ensures { result.seconds ≡ moment.seconds +ℤ pos 1 }
{
    Moment {
        seconds: moment.seconds + 1,
    }
}

/// The moment one period of the calendar later.
fn period_after(moment: Moment) -> Moment
    requires { HasMeaning moment.seconds }
    ensures { result.seconds ≡ moment.seconds +ℤ CYCLE }
{
    Moment {
        seconds: moment.seconds + CYCLE,
    }
}

/// Writes these changes.
fn put_changes(text: &mut ExpansionWriter, changes: Changes<'_>) -> Result<(), NoMemory>
    requires { AllByRecursion IsPlainObservance changes }
    ensures { OnOk result (Appends text.old text.new changes.entry) }
{
    let mut changes = changes;
    'changes: while let Some(change) = changes.next() {
        text.write(&ObservanceText::new(change))?;
    }
    Ok(())
}

/// Writes the changes after a moment, from which on the state repeats, by whole periods: as many as
/// end before another moment. Returns the moment up to which they are written.
fn put_periods(
    alloc: Global,
    text: &mut ExpansionWriter,
    zone: &Zone,
    start: Moment,
    until: Moment,
) -> Result<Moment, NoMemory>
    requires sound { IsSoundFile zone.now }
    requires meaning { HasMeaning start.seconds }
    requires period { (start.seconds +ℤ CYCLE) <ℤ until.seconds }
    requires end { until.seconds ≤ℤ HI }
    requires repeats { RepeatsFrom (zone_state zone.now) start.seconds }
    ensures { IfOk result (IsPutTo (zone_state zone.now) start.seconds until.seconds
        text.old text.new) }
{
    let mut end = period_after(start);
    let mut period = put_first(alloc, text, zone, start, end)?;
    'periods: while end.seconds + CYCLE < until.seconds {
        put_again(text, &mut period)?;
        end = period_after(end);
    }
    Ok(end)
}

/// Writes the changes after a moment up to another, and keeps their texts.
fn put_first(
    alloc: Global,
    text: &mut ExpansionWriter,
    zone: &Zone,
    start: Moment,
    end: Moment,
) -> Result<VecDeque<ObservanceText>, NoMemory>
    requires sound { IsSoundFile zone.now }
    requires range { IsRange start.seconds (end.seconds +ℤ pos 1) }
    ensures kept { IfOk result (λ period. period.items
        ≡ changes_between (zone_state zone.now) start.seconds (end.seconds +ℤ pos 1)) }
    ensures put { OnOk result (Appends text.old text.new
        (changes_between (zone_state zone.now) start.seconds (end.seconds +ℤ pos 1))) }
{
    let mut changes = Changes::after(zone, start, second_after(end));
    let mut period = VecDeque::new(alloc);
    'changes: while let Some(change) = changes.next() {
        let observance = ObservanceText::new(change);
        text.write(&observance)?;
        period.push_back(observance)?;
    }
    Ok(period)
}

/// Goes on to the same changes one period later, and writes them.
fn put_again(
    text: &mut ExpansionWriter,
    period: &mut VecDeque<ObservanceText>,
) -> Result<(), NoMemory>
    requires here { AllByRecursion IsPlainObservance period.old.items }
    requires later { AllByRecursion IsPlainObservance (map observance_later period.old.items) }
    ensures period { OnOk result (period.new.items ≡ map observance_later period.old.items) }
    ensures put { OnOk result (Appends text.old text.new (map observance_later period.old.items)) }
{
    let mut left = period.len();
    'changes: while left > 0 {
        let Some(observance) = period.pop_front() else {
            return Ok(());
        };
        let mut observance = observance;
        observance.go_on();
        text.write(&observance)?;
        period.push_back(observance)?;
        left -= 1;
    }
    Ok(())
}
