//! The parts of a time zone (RFC 7265, section 3.3).
ghost use Rattle.std.specs.Prelude.{◌≡◌, ◌++◌, OnOk, IfSome, All, codes, map};
ghost use Rattle.jiff_core.specs.Calendar.{IsWithin};
ghost use Rattle.td_civil.specs.Bounds.{IsWithinBounds};
ghost use Rattle.recurrence.specs.Spellable.{IsSpellable};
ghost use Rattle.recurrence.specs.Valid.{IsValidForm};
ghost use Rattle.jcal.specs.Tree as spec;
ghost use Rattle.jcal.specs.TreeTokens.{row_tokens, tree_tokens};
ghost use Rattle.jcal.specs.Values.{jcal_offset_text};

use crate::components::{begin_component, begin_components, end_component};
use crate::properties::{begin_property, put_property, put_text};
use crate::recurs::put_recur;
use crate::values::{local_text, offset_value};
use json::Writer;
use recurrence::{Moments, Part, Rule};
use td_base::NoMemory;
use td_civil::Moment;

/// Writes a part.
pub(crate) fn put_part(out: &mut Writer, part: &Part) -> Result<(), NoMemory>
    requires { IsSpellable part.now }
    ensures tokens { OnOk result
        (out.new.tokens ≡ out.old.tokens ++ tree_tokens (spec.part_data part.now)) }
    ensures before { out.new.before ≡ out.old.before }
{
    begin_component(out, kind(part.dst))?;
    put_properties(out, part)?;
    begin_components(out)?;
    end_component(out)?;
    Ok(())
}

fn kind(dst: bool) -> &'static str
    ensures { result.now ≡ spec.component_kind dst }
{
    if dst { "daylight" } else { "standard" }
}

/// Writes the properties of a part, one after another.
fn put_properties(out: &mut Writer, part: &Part) -> Result<(), NoMemory>
    requires { IsSpellable part.now }
    ensures tokens { OnOk result
        (out.new.tokens ≡ out.old.tokens ++ row_tokens (spec.part_properties part.now)) }
    ensures before { out.new.before ≡ out.old.before }
{
    put_change(out, part)?;
    put_dates(out, &part.dates, part.from)?;
    put_rule(out, &part.rule, part.until)?;
    Ok(())
}

fn put_change(out: &mut Writer, part: &Part) -> Result<(), NoMemory>
    requires { IsSpellable part.now }
    ensures tokens { OnOk result
        (out.new.tokens ≡ out.old.tokens ++ row_tokens (spec.change_properties part.now)) }
    ensures before { out.new.before ≡ out.old.before }
{
    put_property(
        out,
        "dtstart",
        "date-time",
        &local_text(part.start, part.from),
    )?;
    put_offset(out, "tzoffsetfrom", part.from)?;
    put_offset(out, "tzoffsetto", part.to)?;
    put_property(out, "tzname", "text", part.name.as_slice())?;
    Ok(())
}

fn put_offset(out: &mut Writer, name: &str, offset: i32) -> Result<(), NoMemory>
    requires { IsWithin 86_399 offset }
    ensures tokens { OnOk result (out.new.tokens ≡ out.old.tokens
        ++ tree_tokens (spec.string_property name.now (codes "utc-offset") (jcal_offset_text offset))) }
    ensures before { out.new.before ≡ out.old.before }
{
    put_property(out, name, "utc-offset", offset_value(offset).as_slice())?;
    Ok(())
}

#[tactic(auto, unfolding(crate::specs::Tree::dates_properties))]
fn put_dates(out: &mut Writer, dates: &Moments, offset: i32) -> Result<(), NoMemory>
    requires dates { All (λ d. IsWithinBounds d.seconds) dates.now }
    requires offset { IsWithin 86_399 offset }
    ensures tokens { OnOk result
        (out.new.tokens ≡ out.old.tokens ++ row_tokens (spec.dates_properties dates.now offset)) }
    ensures before { out.new.before ≡ out.old.before }
{
    match dates.as_slice() {
        [] => Ok(()),
        [first, rest @ ..] => put_date_property(out, *first, rest, offset),
    }
}

/// Writes the property of dates. There must be at least one date.
fn put_date_property(
    out: &mut Writer,
    first: Moment,
    dates: &[Moment],
    offset: i32,
) -> Result<(), NoMemory>
    requires first { IsWithinBounds first.seconds }
    requires dates { All (λ d. IsWithinBounds d.seconds) dates.now }
    requires offset { IsWithin 86_399 offset }
    ensures tokens { OnOk result (out.new.tokens
        ≡ out.old.tokens ++ tree_tokens (spec.dates_property first dates.now offset)) }
    ensures before { out.new.before ≡ out.old.before }
{
    begin_property(out, "rdate", "date-time")?;
    put_text(out, &local_text(first, offset))?;
    put_local_times(out, dates, offset)?;
    out.end_array()?;
    Ok(())
}

/// Writes local times, one after another.
fn put_local_times(out: &mut Writer, dates: &[Moment], offset: i32) -> Result<(), NoMemory>
    requires dates { All (λ d. IsWithinBounds d.seconds) dates.now }
    requires offset { IsWithin 86_399 offset }
    ensures tokens { OnOk result (out.new.tokens
        ≡ out.old.tokens ++ row_tokens (map (spec.date_data offset) dates.now)) }
    ensures before { out.new.before ≡ out.old.before }
{
    for date in dates {
        put_text(out, &local_text(*date, offset))?;
    }
    Ok(())
}

#[tactic(auto, unfolding(crate::specs::Tree::rule_properties))]
fn put_rule(out: &mut Writer, rule: &Option<Rule>, until: Option<Moment>) -> Result<(), NoMemory>
    requires rule { IfSome rule.now (λ r. IsValidForm r.form) }
    requires until { IfSome until (λ m. IsWithinBounds m.seconds) }
    ensures tokens { OnOk result
        (out.new.tokens ≡ out.old.tokens ++ row_tokens (spec.rule_properties rule.now until)) }
    ensures before { out.new.before ≡ out.old.before }
{
    if let Some(rule) = rule {
        begin_property(out, "rrule", "recur")?;
        put_recur(out, rule.form, until)?;
        out.end_array()?;
    }
    Ok(())
}
