//! The text of a calendar with one time zone.
ghost use Rattle.std.specs.Prelude.{◌≡◌, ◌<◌, ◌∷◌, ◌++◌, ℕ, List, length, take, drop, All, IfSome};
ghost use Rattle.std.specs.Prelude.{Some, OnOk};
ghost use Rattle.std.specs.Prelude.{IfOk, OnErr, codes};
ghost use Rattle.std.specs.List.{flat_map};
ghost use Rattle.std.specs.Option.{option_copied};
ghost use Rattle.jiff_core.specs.Calendar.{IsWithin};
ghost use Rattle.td_civil.specs.Bounds.{IsWithinBounds};
ghost use Rattle.td_civil.specs.Calendar.{local_text_of};
ghost use Rattle.ical_lines.specs.Lines.{content_line, folded, lines_written};
ghost use Rattle.recurrence.specs.Spellable.{IsSafe, IsSpellable, IsWritable};
ghost use Rattle.recurrence.specs.Valid.{IsValidForm};
ghost use Rattle.vtimezone.specs.CalendarText as text;
ghost use Rattle.vtimezone.specs.Spelled.{spelled};
ghost use Rattle.vtimezone.specs.Values.{dates_text, more_dates, offset_text};

use crate::Part;
use crate::values::{offset_value, rule_value, utc_value};
use ical_lines::{MOST_OCTETS, append_folded, line};
use recurrence::{Moments, Rule};
use td_base::{Bytes, NoMemory};
use td_civil::{Moment, local_stamp};

/// Appends the calendar of a time zone: an iCalendar object with one VTIMEZONE of these parts (RFC
/// 5545, section 3.6.5). If `tzid` is an alias, `alias_of` is the identifier of its zone. `until`
/// is the end of the range, if it has one. The only memory taken is that of the text.
///
/// The appended text, read as `specs/Spelled.antt` defines, gives back all arguments.
pub fn write(
    out: &mut Bytes,
    tzid: &[u8],
    alias_of: Option<&[u8]>,
    parts: &[Part],
    until: Option<Moment>,
) -> Result<(), NoMemory>
    requires tzid { IsSafe tzid.now }
    requires alias_of { IfSome (option_copied alias_of) IsSafe }
    requires some { 0 < length parts.now }
    requires parts { All IsSpellable parts.now }
    requires until { IfSome until (λ m. IsWithinBounds m.seconds) }
    ensures ok { OnOk result (out.new ≡ out.old
        ++ text.calendar tzid.now (option_copied alias_of.entry) parts.now until) }
    ensures spells { OnOk result (spelled (drop (length out.old) out.new) ≡ Some (record {
      tzid = tzid.now;
      alias_of = option_copied alias_of.entry;
      until = until;
      parts = parts.now;
    })) }
    ensures err { OnErr result (out.new ≡ out.old) }
{
    let start = out.len();
    if let Err(error) = append_calendar(out, tzid, alias_of, parts, until) {
        out.truncate(start);
        return Err(error);
    }
    Ok(())
}

/// Appends the calendar. If memory runs out, the part written so far remains.
#[tactic(auto, unfolding(crate::specs::CalendarText::calendar_lines))]
fn append_calendar(
    out: &mut Bytes,
    tzid: &[u8],
    alias_of: Option<&[u8]>,
    parts: &[Part],
    until: Option<Moment>,
) -> Result<(), NoMemory>
    requires parts { All IsWritable parts.now }
    requires until { IfSome until (λ m. IsWithinBounds m.seconds) }
    ensures ok { OnOk result (out.new ≡ out.old
        ++ text.calendar tzid.now (option_copied alias_of.entry) parts.now until) }
    ensures kept { take (length out.old) out.new ≡ out.old }
{
    append_head(out, tzid)?;
    append_alias(out, alias_of)?;
    append_end(out, until)?;
    append_parts(out, parts)?;
    append_tail(out)?;
    Ok(())
}

#[tactic(auto, unfolding(crate::specs::CalendarText::head_lines))]
fn append_head(out: &mut Bytes, tzid: &[u8]) -> Result<(), NoMemory>
    ensures ok { OnOk result (out.new ≡ out.old ++ lines_written (text.head_lines tzid.now)) }
    ensures kept { take (length out.old) out.new ≡ out.old }
{
    line(out, b"BEGIN", b"VCALENDAR")?;
    line(out, b"VERSION", b"2.0")?;
    line(out, b"PRODID", b"-//tzdistd//RFC 7808//EN")?;
    line(out, b"BEGIN", b"VTIMEZONE")?;
    line(out, b"TZID", tzid)?;
    Ok(())
}

#[tactic(auto, unfolding(crate::specs::CalendarText::alias_lines))]
fn append_alias(out: &mut Bytes, alias_of: Option<&[u8]>) -> Result<(), NoMemory>
    ensures ok { OnOk result (out.new
        ≡ out.old ++ lines_written (text.alias_lines (option_copied alias_of.entry))) }
    ensures kept { take (length out.old) out.new ≡ out.old }
{
    if let Some(tzid) = alias_of {
        line(out, b"TZID-ALIAS-OF", tzid)?;
    }
    Ok(())
}

#[tactic(auto, unfolding(crate::specs::CalendarText::end_lines))]
fn append_end(out: &mut Bytes, until: Option<Moment>) -> Result<(), NoMemory>
    requires { IfSome until (λ m. IsWithinBounds m.seconds) }
    ensures ok { OnOk result (out.new ≡ out.old ++ lines_written (text.end_lines until)) }
    ensures kept { take (length out.old) out.new ≡ out.old }
{
    if let Some(end) = until {
        line(out, b"TZUNTIL", utc_value(end).as_slice())?;
    }
    Ok(())
}

#[tactic(auto, unfolding(crate::specs::CalendarText::tail_lines))]
fn append_tail(out: &mut Bytes) -> Result<(), NoMemory>
    ensures ok { OnOk result (out.new ≡ out.old ++ lines_written text.tail_lines) }
    ensures kept { take (length out.old) out.new ≡ out.old }
{
    line(out, b"END", b"VTIMEZONE")?;
    line(out, b"END", b"VCALENDAR")?;
    Ok(())
}

fn append_parts(out: &mut Bytes, parts: &[Part]) -> Result<(), NoMemory>
    requires { All IsWritable parts.now }
    ensures ok { OnOk result (out.new
        ≡ out.old ++ lines_written (flat_map text.part_lines parts.now)) }
    ensures kept { take (length out.old) out.new ≡ out.old }
{
    for part in parts {
        append_part(out, part)?;
    }
    Ok(())
}

fn kind(dst: bool) -> &'static [u8]
    ensures { result.now ≡ text.kind_of dst }
{
    if dst { b"DAYLIGHT" } else { b"STANDARD" }
}

#[tactic(auto, unfolding(crate::specs::CalendarText::part_lines))]
fn append_part(out: &mut Bytes, part: &Part) -> Result<(), NoMemory>
    requires { IsWritable part.now }
    ensures ok { OnOk result (out.new ≡ out.old ++ lines_written (text.part_lines part.now)) }
    ensures kept { take (length out.old) out.new ≡ out.old }
{
    line(out, b"BEGIN", kind(part.dst))?;
    append_change(out, part)?;
    append_dates(out, &part.dates, part.from)?;
    append_rule(out, &part.rule, part.until)?;
    line(out, b"END", kind(part.dst))?;
    Ok(())
}

#[tactic(auto, unfolding(crate::specs::CalendarText::change_lines))]
fn append_change(out: &mut Bytes, part: &Part) -> Result<(), NoMemory>
    requires { IsWritable part.now }
    ensures ok { OnOk result (out.new ≡ out.old ++ lines_written (text.change_lines part.now)) }
    ensures kept { take (length out.old) out.new ≡ out.old }
{
    append_start(out, part.start, part.from)?;
    append_offset(out, b"TZOFFSETFROM", part.from)?;
    append_offset(out, b"TZOFFSETTO", part.to)?;
    line(out, b"TZNAME", part.name.as_slice())?;
    Ok(())
}

#[tactic(auto, unfolding(crate::specs::CalendarText::start_line))]
fn append_start(out: &mut Bytes, start: Moment, offset: i32) -> Result<(), NoMemory>
    requires start { IsWithinBounds start.seconds }
    requires offset { IsWithin 86_399 offset }
    ensures ok { OnOk result (out.new ≡ out.old ++ content_line (text.start_line start offset)) }
    ensures err { OnErr result (out.new ≡ out.old) }
{
    line(out, b"DTSTART", &local_stamp(start, offset))
}

fn append_offset(out: &mut Bytes, name: &[u8], offset: i32) -> Result<(), NoMemory>
    requires { IsWithin 86_399 offset }
    ensures ok { OnOk result (out.new
        ≡ out.old ++ content_line (text.line name.now (offset_text offset))) }
    ensures err { OnErr result (out.new ≡ out.old) }
{
    line(out, name, offset_value(offset).as_slice())
}

#[tactic(auto, unfolding(crate::specs::CalendarText::date_lines))]
fn append_dates(out: &mut Bytes, dates: &Moments, offset: i32) -> Result<(), NoMemory>
    requires dates { All (λ d. IsWithinBounds d.seconds) dates.now }
    requires offset { IsWithin 86_399 offset }
    ensures ok { OnOk result
        (out.new ≡ out.old ++ lines_written (text.date_lines dates.now offset)) }
    ensures kept { take (length out.old) out.new ≡ out.old }
{
    match dates.as_slice() {
        [] => Ok(()),
        [first, rest @ ..] => append_date_line(out, *first, rest, offset),
    }
}

/// Appends the line of dates piece by piece, since their number has no bound.
#[tactic(auto, unfolding(crate::specs::Values::dates_text))]
fn append_date_line(
    out: &mut Bytes,
    first: Moment,
    dates: &[Moment],
    offset: i32,
) -> Result<(), NoMemory>
    requires first { IsWithinBounds first.seconds }
    requires dates { All (λ d. IsWithinBounds d.seconds) dates.now }
    requires offset { IsWithin 86_399 offset }
    ensures ok { OnOk result (out.new ≡ out.old
        ++ content_line (text.line (codes "RDATE") (dates_text first dates.now offset))) }
    ensures kept { take (length out.old) out.new ≡ out.old }
{
    let after_name = append_folded(out, MOST_OCTETS, b"RDATE:")?;
    let after_first = append_folded(out, after_name, &local_stamp(first, offset))?;
    append_more_dates(out, after_first, dates, offset)?;
    out.append(b"\r\n")?;
    Ok(())
}

/// Appends dates, each after a comma, to a line that has room for this many more octets. Returns
/// the room that is left after them.
fn append_more_dates(
    out: &mut Bytes,
    room: usize,
    dates: &[Moment],
    offset: i32,
) -> Result<usize, NoMemory>
    requires dates { All (λ d. IsWithinBounds d.seconds) dates.now }
    requires offset { IsWithin 86_399 offset }
    ensures ok { IfOk result (λ left. (rest : List ℕ)
        → out.new ++ folded left rest
        ≡ out.old ++ folded room (more_dates dates.now offset ++ rest)) }
    ensures kept { take (length out.old) out.new ≡ out.old }
{
    let mut room = room;
    for date in dates {
        room = append_date(out, room, *date, offset)?;
    }
    Ok(room)
}

fn append_date(out: &mut Bytes, room: usize, date: Moment, offset: i32) -> Result<usize, NoMemory>
    requires date { IsWithinBounds date.seconds }
    requires offset { IsWithin 86_399 offset }
    ensures ok { IfOk result (λ left. (rest : List ℕ)
        → out.new ++ folded left rest
        ≡ out.old ++ folded room ((codes "," ++ local_text_of date.seconds offset) ++ rest)) }
    ensures kept { take (length out.old) out.new ≡ out.old }
{
    let after_comma = append_folded(out, room, b",")?;
    append_folded(out, after_comma, &local_stamp(date, offset))
}

#[tactic(auto, unfolding(crate::specs::CalendarText::rule_lines))]
fn append_rule(out: &mut Bytes, rule: &Option<Rule>, until: Option<Moment>) -> Result<(), NoMemory>
    requires rule { IfSome rule.now (λ r. IsValidForm r.form) }
    requires until { IfSome until (λ m. IsWithinBounds m.seconds) }
    ensures ok { OnOk result (out.new ≡ out.old ++ lines_written (text.rule_lines rule.now until)) }
    ensures kept { take (length out.old) out.new ≡ out.old }
{
    if let Some(rule) = rule {
        line(out, b"RRULE", rule_value(rule, until).as_slice())?;
    }
    Ok(())
}
