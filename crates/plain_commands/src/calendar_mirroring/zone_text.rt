//! The observances of a zone's calendar in a range, as lines.
ghost use Rattle.std.specs.Prelude.{◌≡◌, ◌++◌, ◌≤ℤ◌, ◌<ℤ◌, Ok, IfOk, IsOk, OnOk};
ghost use Rattle.std.specs.Fmt.{signed_decimal};
ghost use Rattle.std.specs.Int.{int_max, int_min};
ghost use Rattle.std.specs.List.{AllByRecursion, flat_map};
ghost use Rattle.td_civil.specs.Bounds.{IsWithinBounds};
ghost use Rattle.run_ends.specs.Commands.{IsRangeAsked};
ghost use Rattle.run_ends.specs.Running.CalendarMirroring as page;
ghost use Rattle.run_ends.specs.Running.CalendarMirroring.{KeepsCalendar, ZoneTells};
ghost use Rattle.plain_commands.specs.CalendarSteps.{AppendsCalendar};
ghost use Rattle.run_ends.specs.Running.StateLine.{state_line};
ghost use Rattle.vtimezone_reader.specs.Observing.{calendar_observed};
ghost use Rattle.vtimezone_reader.specs.ReadLines.{calendar_in};
ghost use Rattle.vtimezone_reader.specs.Sound.{IsSoundCalendar};

use crate::calendar_mirroring::CalendarPlan;
use crate::state_line::kind_word;
use itoa::Buffer;
use json_forms::ListZone;
use std::alloc::Global;
use sync_core::Mirror;
use td_base::{Bytes, NoMemory};
use td_civil::{HI, LO, Moment, Observance, utc_text};
use vtimezone_reader::{Calendar, CalendarFault, expand, first_onset, read};

/// The lines of a zone whose calendar is kept.
pub fn text_of_zone(
    alloc: Global,
    plan: &CalendarPlan<'_>,
    mirror: &Mirror,
    zone: &ListZone,
) -> Result<Bytes, NoMemory>
    requires range { IsRangeAsked plan.now.start.seconds plan.now.end.seconds }
    requires kept { KeepsCalendar mirror.now.files zone.now.tzid }
    ensures { IfOk result (ZoneTells mirror.now.files
        plan.now.start.seconds plan.now.end.seconds zone.now) }
{
    let text = mirror.file(&zone.tzid).unwrap();
    let calendar = calendar_of(alloc, text)?;
    let mut lines = Bytes::new(alloc);
    put_zone(&mut lines, &zone.tzid)?;
    put_calendar(alloc, &mut lines, &calendar, plan)?;
    Ok(lines)
}

/// Parses a text that is known to be a calendar, so that only memory can fail.
fn calendar_of(alloc: Global, text: &Bytes) -> Result<Calendar, NoMemory>
    requires { IsOk (calendar_in text.now) }
    ensures reads { IfOk result (λ c. calendar_in text.now ≡ Ok c) }
    ensures sound { IfOk result IsSoundCalendar }
{
    match read(alloc, text.as_slice()) {
        Ok(calendar) => Ok(calendar),
        Err(CalendarFault::NoMemory) => Err(NoMemory),
        Err(_) => unreachable!(),
    }
}

/// Appends the first line of a zone.
fn put_zone(out: &mut Bytes, tzid: &Bytes) -> Result<(), NoMemory>
    ensures { OnOk result (out.new ≡ out.old ++ page.zone_line tzid.now) }
{
    out.append(b"zone ")?;
    out.append(tzid.as_slice())?;
    out.append(b"\n")?;
    Ok(())
}

/// Appends the observances of a calendar in a range.
#[tactic(auto, using(crate::proofs::CalendarLemmas::calendar_told))]
fn put_calendar(
    alloc: Global,
    out: &mut Bytes,
    calendar: &Calendar,
    plan: &CalendarPlan<'_>,
) -> Result<(), NoMemory>
    requires range { IsRangeAsked plan.now.start.seconds plan.now.end.seconds }
    requires sound { IsSoundCalendar calendar.now }
    ensures { OnOk result (AppendsCalendar calendar.now
        plan.now.start.seconds plan.now.end.seconds out.old out.new) }
{
    let start = later(plan.start, first_onset(calendar));
    let end = end_within(&calendar.until, plan.end);
    put_range(alloc, out, calendar, start, end)?;
    Ok(())
}

/// The later of two moments.
fn later(a: Moment, b: Moment) -> Moment
    ensures is { result.seconds ≡ int_max a.seconds b.seconds }
    ensures later { a.seconds ≤ℤ result.seconds }
{
    if b.seconds < a.seconds { a } else { b }
}

/// The earlier of an end and the end of a calendar, if it has one.
fn end_within(until: &Option<Moment>, end: Moment) -> Moment
    ensures is { result.seconds ≡ page.end_within until.now end.seconds }
    ensures within { result.seconds ≤ℤ end.seconds }
{
    match until {
        Some(until) => earlier(end, *until),
        None => end,
    }
}

/// The earlier of two moments.
fn earlier(a: Moment, b: Moment) -> Moment
    ensures is { result.seconds ≡ int_min a.seconds b.seconds }
    ensures within { result.seconds ≤ℤ a.seconds }
{
    if b.seconds < a.seconds { b } else { a }
}

/// Appends the lines of a range, which may be empty.
fn put_range(
    alloc: Global,
    out: &mut Bytes,
    calendar: &Calendar,
    start: Moment,
    end: Moment,
) -> Result<(), NoMemory>
    requires sound { IsSoundCalendar calendar.now }
    requires low { LO ≤ℤ start.seconds }
    requires end { end.seconds ≤ℤ HI }
    ensures { OnOk result (out.new
        ≡ out.old ++ page.range_lines calendar.now.parts start.seconds end.seconds) }
{
    if start.seconds < end.seconds {
        put_observed(alloc, out, calendar, start, end)?;
    }
    Ok(())
}

/// Appends the lines of a range that is not empty.
#[tactic(auto, using(crate::proofs::CalendarLemmas::observances_told))]
fn put_observed(
    alloc: Global,
    out: &mut Bytes,
    calendar: &Calendar,
    start: Moment,
    end: Moment,
) -> Result<(), NoMemory>
    requires sound { IsSoundCalendar calendar.now }
    requires low { LO ≤ℤ start.seconds }
    requires range { start.seconds <ℤ end.seconds }
    requires end { end.seconds ≤ℤ HI }
    ensures { OnOk result (out.new ≡ out.old ++ flat_map page.observance_line
        (calendar_observed calendar.now.parts start.seconds end.seconds)) }
{
    let told = expand(alloc, calendar, start, end)?;
    put_observances(out, told.as_slice())?;
    Ok(())
}

/// Appends a line for each observance.
fn put_observances(out: &mut Bytes, told: &[Observance]) -> Result<(), NoMemory>
    requires { AllByRecursion (λ o. IsWithinBounds o.onset.seconds) told.now }
    ensures { OnOk result (out.new ≡ out.old ++ flat_map page.observance_line told.now) }
{
    for observance in told {
        put_observance(out, observance)?;
    }
    Ok(())
}

/// Appends the line of an observance.
fn put_observance(out: &mut Bytes, observance: &Observance) -> Result<(), NoMemory>
    requires { IsWithinBounds observance.now.onset.seconds }
    ensures { OnOk result (out.new ≡ out.old ++ page.observance_line observance.now) }
{
    out.append(&utc_text(observance.onset))?;
    out.append(b" ")?;
    put_signed(out, observance.from)?;
    out.append(b" ")?;
    put_state(out, observance)?;
    Ok(())
}

/// Appends the state from an observance's onset on.
fn put_state(out: &mut Bytes, observance: &Observance) -> Result<(), NoMemory>
    ensures { OnOk result (out.new ≡ out.old ++ state_line (page.shown_state observance.now)) }
{
    put_signed(out, observance.to)?;
    out.append(kind_word(observance.dst))?;
    out.append(shown_name(observance.name.as_slice()))?;
    out.append(b"\n")?;
    Ok(())
}

fn put_signed(out: &mut Bytes, number: i32) -> Result<(), NoMemory>
    ensures { OnOk result (out.new ≡ out.old ++ signed_decimal number) }
{
    let mut buffer = Buffer::new();
    out.append(buffer.format(number).as_bytes())?;
    Ok(())
}

/// The name, or a dash for an empty one.
fn shown_name(name: &[u8]) -> &[u8]
    ensures { result.now ≡ page.shown_name name.now }
{
    match name {
        [] => b"-",
        _ => name,
    }
}
