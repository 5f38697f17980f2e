//! The state of a reader of lines, and the order of the lines (RFC 5545, sections 3.4 and 3.6).
ghost use Rattle.std.specs.Prelude.{◌≡◌, ◌≢◌, Ok, Err, IfOk, IfErr};
ghost use Rattle.vtimezone.specs.CalendarText.{kind_of};
ghost use Rattle.vtimezone_reader.specs.ReadLines as read;

use crate::Calendar;
use crate::calendar_fault::LineFault;
use crate::content_lines::is_word;
use crate::part_lines::{OpenPart, part_line, part_of};
use crate::zone_lines::{OpenZone, zone_line};
use std::alloc::Global;

/// Which components are open before a line, with what was read of them.
#[derive(Drop)]
pub enum Standing {
    Outside,
    InCalendar,
    InZone(OpenZone),
    InPart(OpenZone, OpenPart),
    AfterZone(Calendar),
    Ended(Calendar),
}

fn begins(name: &[u8], value: &[u8], component: &[u8]) -> bool
    ensures { result ≡ read.begins name.now value.now component.now }
{
    is_word(name, b"BEGIN") && is_word(value, component)
}

fn ends(name: &[u8], value: &[u8], component: &[u8]) -> bool
    ensures { result ≡ read.ends name.now value.now component.now }
{
    is_word(name, b"END") && is_word(value, component)
}

fn is_mark(name: &[u8]) -> bool
    ensures { result ≡ read.is_mark name.now }
{
    is_word(name, b"BEGIN") || is_word(name, b"END")
}

fn kind_of(dst: bool) -> &'static [u8]
    ensures { result.now ≡ kind_of dst }
{
    if dst { b"DAYLIGHT" } else { b"STANDARD" }
}

/// Keeps the state at any line that is neither BEGIN nor END.
fn stay(standing: Standing, name: &[u8]) -> Result<Standing, LineFault>
    ensures { result ≡ read.stays standing name.now }
{
    if is_mark(name) {
        Err(LineFault::Frame)
    } else {
        Ok(standing)
    }
}

/// The reader's state after a line.
#[tactic(auto, unfolding(crate::specs::ReadLines::step))]
pub(crate) fn step(
    alloc: Global,
    standing: Standing,
    name: &[u8],
    value: &[u8],
) -> Result<Standing, LineFault>
    ensures found { IfOk result (λ now. read.step standing name.now value.now ≡ Ok now) }
    ensures fault { IfErr result (λ e. e ≢ LineFault.NoMemory
        → read.step standing name.now value.now ≡ Err e) }
{
    match standing {
        Standing::Outside => from_outside(name, value),
        Standing::InCalendar => in_calendar(alloc, name, value),
        Standing::InZone(zone) => in_zone(alloc, zone, name, value),
        Standing::InPart(zone, part) => in_part(alloc, zone, part, name, value),
        Standing::AfterZone(calendar) => after_zone(calendar, name, value),
        Standing::Ended(_) => Err(LineFault::Frame),
    }
}

#[tactic(auto, unfolding(crate::specs::ReadLines::step))]
fn from_outside(name: &[u8], value: &[u8]) -> Result<Standing, LineFault>
    ensures { result ≡ read.step Standing.Outside name.now value.now }
{
    if begins(name, value, b"VCALENDAR") {
        Ok(Standing::InCalendar)
    } else {
        Err(LineFault::Frame)
    }
}

#[tactic(auto, unfolding(crate::specs::ReadLines::step))]
fn in_calendar(alloc: Global, name: &[u8], value: &[u8]) -> Result<Standing, LineFault>
    ensures { result ≡ read.step Standing.InCalendar name.now value.now }
{
    if begins(name, value, b"VTIMEZONE") {
        Ok(Standing::InZone(OpenZone::begin(alloc)))
    } else {
        stay(Standing::InCalendar, name)
    }
}

#[tactic(auto, unfolding(crate::specs::ReadLines::in_zone))]
fn in_zone(alloc: Global, zone: OpenZone, name: &[u8], value: &[u8]) -> Result<Standing, LineFault>
    ensures found { IfOk result (λ now. read.in_zone zone name.now value.now ≡ Ok now) }
    ensures fault { IfErr result (λ e. e ≢ LineFault.NoMemory
        → read.in_zone zone name.now value.now ≡ Err e) }
{
    if begins(name, value, b"STANDARD") {
        return Ok(Standing::InPart(zone, OpenPart::begin(alloc, false)));
    }
    if begins(name, value, b"DAYLIGHT") {
        return Ok(Standing::InPart(zone, OpenPart::begin(alloc, true)));
    }
    if ends(name, value, b"VTIMEZONE") && zone.parts.len() > 0 {
        return Ok(Standing::AfterZone(zone.calendar()?));
    }
    if is_mark(name) {
        return Err(LineFault::Frame);
    }
    Ok(Standing::InZone(zone_line(alloc, zone, name, value)?))
}

#[tactic(auto, unfolding(crate::specs::ReadLines::in_part))]
fn in_part(
    alloc: Global,
    zone: OpenZone,
    part: OpenPart,
    name: &[u8],
    value: &[u8],
) -> Result<Standing, LineFault>
    ensures found { IfOk result (λ now. read.in_part zone part name.now value.now ≡ Ok now) }
    ensures fault { IfErr result (λ e. e ≢ LineFault.NoMemory
        → read.in_part zone part name.now value.now ≡ Err e) }
{
    if ends(name, value, kind_of(part.dst)) {
        let part = part_of(alloc, part)?;
        return Ok(Standing::InZone(zone.with_part(part)?));
    }
    if is_mark(name) {
        return Err(LineFault::Frame);
    }
    Ok(Standing::InPart(zone, part_line(alloc, part, name, value)?))
}

#[tactic(auto, unfolding(crate::specs::ReadLines::step))]
fn after_zone(calendar: Calendar, name: &[u8], value: &[u8]) -> Result<Standing, LineFault>
    ensures { result ≡ read.step (Standing.AfterZone calendar) name.now value.now }
{
    if ends(name, value, b"VCALENDAR") {
        Ok(Standing::Ended(calendar))
    } else {
        stay(Standing::AfterZone(calendar), name)
    }
}
