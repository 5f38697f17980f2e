//! The calendar of a time zone.
ghost use Rattle.std.specs.Prelude.{◌≡◌, ◌<◌, ◌++◌, length, map, All, IfSome, OnOk, OnErr, Some};
ghost use Rattle.std.specs.Prelude.{option_copied, IfOk};
ghost use Rattle.td_civil.specs.Bounds.{IsWithinBounds};
ghost use Rattle.recurrence.specs.Spellable.{IsSafe, IsSpellable};
ghost use Rattle.jcal.specs.Reading.{spelled};
ghost use Rattle.jcal.specs.Tree as spec;
ghost use Rattle.jcal.specs.TreeTokens.{row_tokens, tree_tokens};

use crate::components::{begin_component, begin_components, end_component};
use crate::parts::put_part;
use crate::properties::put_property;
use json::Writer;
use recurrence::Part;
use std::alloc::Global;
use td_base::{Bytes, NoMemory};
use td_civil::{Moment, utc_text};

/// Appends the calendar of a time zone as JSON: an iCalendar object with one VTIMEZONE of these
/// parts (RFC 7265). If `tzid` is an alias, `alias_of` is the identifier of its zone. `until` is
/// the end of the range, if it has one. If memory runs out, nothing is appended.
///
/// The tree of the appended text, read as `specs/Reading.antt` defines, gives back all arguments.
pub fn write(
    alloc: Global,
    out: &mut Bytes,
    tzid: &[u8],
    alias_of: Option<&[u8]>,
    parts: &[Part],
    until: Option<Moment>,
) -> Result<(), NoMemory>
    requires tzid { IsSafe tzid.now }
    requires alias_of { IfSome (option_copied alias_of) IsSafe }
    requires some { 0 < length parts.now }
    requires parts { All IsSpellable parts.now }
    requires until { IfSome until (λ m. IsWithinBounds m.seconds) }
    ensures ok { OnOk result (out.new ≡ out.old
        ++ spec.calendar tzid.now (option_copied alias_of.entry) parts.now until) }
    ensures spells { OnOk result
        (spelled (spec.tree tzid.now (option_copied alias_of.entry) parts.now until)
        ≡ Some (record {
          tzid = tzid.now;
          alias_of = option_copied alias_of.entry;
          until = until;
          parts = parts.now;
        })) }
    ensures err { OnErr result (out.new ≡ out.old) }
{
    let text = calendar_of(alloc, tzid, alias_of, parts, until)?;
    out.append(text.as_slice())
}

/// The text of the calendar, in new bytes.
fn calendar_of(
    alloc: Global,
    tzid: &[u8],
    alias_of: Option<&[u8]>,
    parts: &[Part],
    until: Option<Moment>,
) -> Result<Bytes, NoMemory>
    requires tzid { IsSafe tzid.now }
    requires alias_of { IfSome (option_copied alias_of) IsSafe }
    requires parts { All IsSpellable parts.now }
    requires until { IfSome until (λ m. IsWithinBounds m.seconds) }
    ensures { IfOk result (λ text. text
        ≡ spec.calendar tzid.now (option_copied alias_of.entry) parts.now until) }
{
    let mut out = Writer::new(Vec::new(alloc));
    put_calendar(&mut out, tzid, alias_of, parts, until)?;
    Ok(Bytes::from(out.into_inner()))
}

/// Writes the calendar.
fn put_calendar(
    out: &mut Writer,
    tzid: &[u8],
    alias_of: Option<&[u8]>,
    parts: &[Part],
    until: Option<Moment>,
) -> Result<(), NoMemory>
    requires tzid { IsSafe tzid.now }
    requires alias_of { IfSome (option_copied alias_of) IsSafe }
    requires parts { All IsSpellable parts.now }
    requires until { IfSome until (λ m. IsWithinBounds m.seconds) }
    ensures tokens { OnOk result (out.new.tokens ≡ out.old.tokens
        ++ tree_tokens (spec.tree tzid.now (option_copied alias_of.entry) parts.now until)) }
    ensures before { out.new.before ≡ out.old.before }
{
    begin_component(out, "vcalendar")?;
    put_calendar_properties(out)?;
    begin_components(out)?;
    put_zone(out, tzid, alias_of, parts, until)?;
    end_component(out)?;
    Ok(())
}

fn put_calendar_properties(out: &mut Writer) -> Result<(), NoMemory>
    ensures tokens { OnOk result
        (out.new.tokens ≡ out.old.tokens ++ row_tokens spec.calendar_properties) }
    ensures before { out.new.before ≡ out.old.before }
{
    put_property(out, "version", "text", b"2.0")?;
    put_property(out, "prodid", "text", b"-//tzdistd//RFC 7808//EN")?;
    Ok(())
}

/// Writes the time zone.
fn put_zone(
    out: &mut Writer,
    tzid: &[u8],
    alias_of: Option<&[u8]>,
    parts: &[Part],
    until: Option<Moment>,
) -> Result<(), NoMemory>
    requires tzid { IsSafe tzid.now }
    requires alias_of { IfSome (option_copied alias_of) IsSafe }
    requires parts { All IsSpellable parts.now }
    requires until { IfSome until (λ m. IsWithinBounds m.seconds) }
    ensures tokens { OnOk result (out.new.tokens ≡ out.old.tokens
        ++ tree_tokens (spec.calendar_data tzid.now (option_copied alias_of.entry) parts.now until)) }
    ensures before { out.new.before ≡ out.old.before }
{
    begin_component(out, "vtimezone")?;
    put_zone_properties(out, tzid, alias_of, until)?;
    begin_components(out)?;
    put_parts(out, parts)?;
    end_component(out)?;
    Ok(())
}

fn put_zone_properties(
    out: &mut Writer,
    tzid: &[u8],
    alias_of: Option<&[u8]>,
    until: Option<Moment>,
) -> Result<(), NoMemory>
    requires tzid { IsSafe tzid.now }
    requires alias_of { IfSome (option_copied alias_of) IsSafe }
    requires until { IfSome until (λ m. IsWithinBounds m.seconds) }
    ensures tokens { OnOk result (out.new.tokens ≡ out.old.tokens
        ++ row_tokens (spec.zone_properties tzid.now (option_copied alias_of.entry) until)) }
    ensures before { out.new.before ≡ out.old.before }
{
    put_property(out, "tzid", "text", tzid)?;
    put_alias(out, alias_of)?;
    put_end(out, until)?;
    Ok(())
}

#[tactic(auto, unfolding(crate::specs::Tree::alias_properties))]
fn put_alias(out: &mut Writer, alias_of: Option<&[u8]>) -> Result<(), NoMemory>
    requires { IfSome (option_copied alias_of) IsSafe }
    ensures tokens { OnOk result (out.new.tokens ≡ out.old.tokens
        ++ row_tokens (spec.alias_properties (option_copied alias_of.entry))) }
    ensures before { out.new.before ≡ out.old.before }
{
    if let Some(tzid) = alias_of {
        put_property(out, "tzid-alias-of", "text", tzid)?;
    }
    Ok(())
}

#[tactic(auto, unfolding(crate::specs::Tree::end_properties))]
fn put_end(out: &mut Writer, until: Option<Moment>) -> Result<(), NoMemory>
    requires { IfSome until (λ m. IsWithinBounds m.seconds) }
    ensures tokens { OnOk result
        (out.new.tokens ≡ out.old.tokens ++ row_tokens (spec.end_properties until)) }
    ensures before { out.new.before ≡ out.old.before }
{
    if let Some(end) = until {
        put_property(out, "tzuntil", "date-time", &utc_text(end))?;
    }
    Ok(())
}

/// Writes the parts, one after another.
fn put_parts(out: &mut Writer, parts: &[Part]) -> Result<(), NoMemory>
    requires { All IsSpellable parts.now }
    ensures tokens { OnOk result
        (out.new.tokens ≡ out.old.tokens ++ row_tokens (map spec.part_data parts.now)) }
    ensures before { out.new.before ≡ out.old.before }
{
    for part in parts {
        put_part(out, part)?;
    }
    Ok(())
}
