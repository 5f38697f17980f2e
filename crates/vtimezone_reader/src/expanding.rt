//! The observances of a calendar (RFC 7808, section 5.4).
ghost use Rattle.std.specs.Prelude.{◌≡◌, ◌++◌, ◌+ℤ◌, ◌≤ℤ◌, ◌<ℤ◌, ◌<◌, pos, length, slice_index_or};
ghost use Rattle.std.specs.Prelude.{IfOk, OnOk};
ghost use Rattle.std.specs.List.{AllByRecursion};
ghost use Rattle.jiff_core.specs.Calendar.{IsBetween};
ghost use Rattle.recurrence.specs.InForce.{state_of_part};
ghost use Rattle.zone_meaning.specs.Observed.{changes_between, observance};
ghost use Rattle.vtimezone_reader.specs.Observing.{calendar_observed, change_if};
ghost use Rattle.vtimezone_reader.specs.Onsets.{calendar_state};
ghost use Rattle.vtimezone_reader.specs.Sound.{IsSoundCalendar, IsSoundPart};

use crate::begun::before_onset;
use crate::calendar_type::{Calendar, Observances};
use crate::turns::{nth, together, turns_between};
use recurrence::Part;
use std::alloc::Global;
use td_base::{Items, NoMemory};
use td_civil::{HI, LO, Local, Moment, Name, Observance};

/// The observances of the calendar from a moment to before another: the state at the first, and
/// each change after it (RFC 7808, section 5.4). Before the first onset the state has offset 0 and
/// no name. The calendar's end, if it has one, is ignored, so the range should not go beyond it.
///
/// It takes time and memory for the onsets of that range, and time for each part and its dates.
pub fn expand(
    alloc: Global,
    calendar: &Calendar,
    a: Moment,
    b: Moment,
) -> Result<Observances, NoMemory>
    requires sound { IsSoundCalendar calendar.now }
    requires low { LO ≤ℤ a.seconds }
    requires range { a.seconds <ℤ b.seconds }
    requires end { b.seconds ≤ℤ HI }
    ensures { IfOk result
        (λ list. list ≡ calendar_observed calendar.now.parts a.seconds b.seconds) }
{
    let parts = calendar.parts.as_slice();
    let state = state_at(alloc, parts, a)?;
    let mut list = Items::new(alloc);
    list.push(first_at(&state, a))?;
    append_changes(alloc, &mut list, parts, a, b, state)?;
    Ok(list)
}

/// The state of local time after the part's onsets.
fn state_of(part: &Part) -> Local
    ensures { result ≡ state_of_part part.now }
{
    Local {
        offset: part.to,
        dst: part.dst,
        name: part.name.copy(),
    }
}

fn part_at(parts: &[Part], place: usize) -> &Part
    requires { place < length parts.now }
    ensures { result.now ≡ slice_index_or parts.now place result.now }
{
    &parts[place]
}

/// The state of the calendar at a moment.
fn state_at(alloc: Global, parts: &[Part], t: Moment) -> Result<Local, NoMemory>
    requires sound { AllByRecursion IsSoundPart parts.now }
    requires low { LO ≤ℤ t.seconds }
    requires high { t.seconds <ℤ HI }
    ensures { IfOk result (λ state. state ≡ calendar_state parts.now t.seconds) }
{
    let turns = turns_between(alloc, parts, before_onset(parts, t), second_after(t))?;
    let mut next = 0;
    let mut state = Local {
        offset: 0,
        dst: false,
        name: Name::new(),
    };
    'turns: while next < turns.len() {
        let (part, after) = together(turns.as_slice(), next);
        state = state_of(part_at(parts, part));
        next = after;
    }
    Ok(state)
}

fn second_after(moment: Moment) -> Moment
    requires { IsBetween LO HI moment.seconds }
    ensures { result.seconds ≡ moment.seconds +ℤ pos 1 }
{
    Moment {
        seconds: moment.seconds + 1,
    }
}

/// Appends the changes after a moment and before the end, in rising order.
fn append_changes(
    alloc: Global,
    out: &mut Observances,
    parts: &[Part],
    t: Moment,
    end: Moment,
    state: Local,
) -> Result<(), NoMemory>
    requires sound { AllByRecursion IsSoundPart parts.now }
    requires state { state ≡ calendar_state parts.now t.seconds }
    requires low { LO ≤ℤ t.seconds }
    requires range { t.seconds <ℤ end.seconds }
    requires end { end.seconds ≤ℤ HI }
    ensures { OnOk result (out.new
        ≡ out.old ++ changes_between (calendar_state parts.now) t.seconds end.seconds) }
{
    let turns = turns_between(alloc, parts, t, end)?;
    let mut next = 0;
    let mut before = state;
    'turns: while next < turns.len() {
        let turn = nth(turns.as_slice(), next);
        let (part, after) = together(turns.as_slice(), next);
        let now = state_of(part_at(parts, part));
        append_change(out, turn.onset, &before, &now)?;
        next = after;
        before = now;
    }
    Ok(())
}

/// Appends the change from one state to another, if they differ.
fn append_change(
    out: &mut Observances,
    onset: Moment,
    before: &Local,
    now: &Local,
) -> Result<(), NoMemory>
    ensures { OnOk result (out.new ≡ out.old ++ change_if onset before.now now.now) }
{
    if now.is_same(before) {
        return Ok(());
    }
    out.push(Observance {
        onset,
        from: before.offset,
        to: now.offset,
        dst: now.dst,
        name: now.name.copy(),
    })
}

/// The state at the beginning of a range.
fn first_at(state: &Local, a: Moment) -> Observance
    ensures { result ≡ observance a.seconds state.now.offset state.now }
{
    Observance {
        onset: a,
        from: state.offset,
        to: state.offset,
        dst: state.dst,
        name: state.name.copy(),
    }
}
