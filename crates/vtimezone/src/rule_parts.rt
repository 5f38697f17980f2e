//! The parts of a footer's rules.
ghost use Rattle.std.specs.Prelude.{◌≡◌, ◌++◌, ◌-ℤ◌, pos, int_lt, true, false, unsigned_abs};
ghost use Rattle.std.specs.Prelude.{Some, OnOk, option_to_list, IfSome};
ghost use Rattle.jiff_core.specs.Calendar.{IsBetween};
ghost use Rattle.td_civil.specs.Bounds.{IsWithinBounds};
ghost use Rattle.posix_footer.specs.Carried.{is_carried_rule, beyond, IsCarriedIfAny};
ghost use Rattle.posix_footer.specs.Lawful.{IsLawful, IsLawfulRule};
ghost use Rattle.posix_footer.specs.Onset.{onset_of};
ghost use Rattle.posix_footer.specs.declared.rule_types.Edge.{Edge};
ghost use Rattle.recurrence.specs.RuleOfDate.{rule_of};
ghost use Rattle.vtimezone.specs.LastYear.{IsLastYear};
ghost use Rattle.vtimezone.specs.PartsOf as spec;
ghost use Rattle.vtimezone.specs.Ranges.{seconds_if_any};

use crate::Part;
use posix_footer::{DstRule, Edge, Footer, onset};
use recurrence::{Carried, Moments, Rule, carry};
use std::alloc::Global;
use td_base::{Items, NoMemory};
use td_civil::{Local, Moment, year_of};

/// The last year up to 9998 that begins by the end of a range.
fn last_year(end: Moment) -> i32
    requires { IsWithinBounds end.seconds }
    ensures { IsLastYear end.seconds result }
{
    year_of(end).min(9998)
}

/// The last onset before the end, of one of the two yearly changes, in the years from a year to
/// 9998.
fn last_onset(rule: &DstRule, std: i32, edge: Edge, year: i32, end: Moment) -> Option<Moment>
    requires lawful { IsLawfulRule std rule.now }
    requires carried { is_carried_rule rule.now ≡ true }
    requires year { IsBetween (pos 1801) (pos 9998) year }
    requires end { IsWithinBounds end.seconds }
    ensures { result
        ≡ spec.last_before rule.now std edge year end.seconds (unsigned_abs (pos 9999 -ℤ year)) }
{
    let last = last_year(end);
    if last < year {
        return None;
    }
    let candidate = onset(rule, std, last, edge);
    if comes_before(candidate, end) {
        return Some(candidate);
    }
    if year < last {
        return Some(onset(rule, std, last - 1, edge));
    }
    None
}

pub(crate) fn comes_before(moment: Moment, end: Moment) -> bool
    ensures { result ≡ int_lt moment.seconds end.seconds }
{
    moment.seconds < end.seconds
}

/// The part of a yearly change whose rule is known.
#[tactic(auto, unfolding(crate::specs::PartsOf::rule_part))]
fn rule_part(
    alloc: Global,
    std: &Local,
    rule: &DstRule,
    days: Rule,
    edge: Edge,
    year: i32,
    until: Option<Moment>,
) -> Part
    requires lawful { IsLawfulRule std.now.offset rule.now }
    requires days { days ≡ rule_of (spec.date_of_edge rule.now edge) }
    requires year { IsBetween (pos 1801) (pos 9998) year }
    ensures { result ≡ spec.rule_part std.now rule.now year edge until }
{
    let (from, after) = match edge {
        Edge::Start => (std.offset, &rule.dst),
        Edge::End => (rule.dst.offset, std),
    };
    Part {
        dst: after.dst,
        start: onset(rule, std.offset, year, edge),
        from,
        to: after.offset,
        name: after.name.copy(),
        rule: Some(days),
        until,
        dates: Moments::new(alloc),
    }
}

/// The same, up to its last onset before the end of a range, if it has one.
fn part_before(
    alloc: Global,
    std: &Local,
    rule: &DstRule,
    days: Rule,
    edge: Edge,
    year: i32,
    until: Option<Moment>,
) -> Option<Part>
    requires lawful { IsLawfulRule std.now.offset rule.now }
    requires carried { is_carried_rule rule.now ≡ true }
    requires days { days ≡ rule_of (spec.date_of_edge rule.now edge) }
    requires year { IsBetween (pos 1801) (pos 9998) year }
    requires until { IfSome until (λ m. IsWithinBounds m.seconds) }
    ensures { option_to_list result
        ≡ spec.rule_part_if std.now rule.now year (seconds_if_any until) edge }
{
    match until {
        None => Some(rule_part(alloc, std, rule, days, edge, year, None)),
        Some(end) => match last_onset(rule, std.offset, edge, year, end) {
            None => None,
            Some(last) => Some(rule_part(alloc, std, rule, days, edge, year, Some(last))),
        },
    }
}

fn push_if_any(parts: &mut Items<Part>, part: Option<Part>) -> Result<(), NoMemory>
    ensures { OnOk result (parts.new ≡ parts.old ++ option_to_list part) }
{
    match part {
        None => Ok(()),
        Some(part) => {
            parts.push(part)?;
            Ok(())
        }
    }
}

fn push_two(
    parts: &mut Items<Part>,
    first: Option<Part>,
    second: Option<Part>,
) -> Result<(), NoMemory>
    ensures { OnOk result (parts.new
        ≡ parts.old ++ (option_to_list first ++ option_to_list second)) }
{
    push_if_any(parts, first)?;
    push_if_any(parts, second)?;
    Ok(())
}

/// Whether daylight saving time begins in the year before it ends.
fn starts_first(rule: &DstRule, std: i32, year: i32) -> bool
    requires lawful { IsLawfulRule std rule.now }
    requires year { IsBetween (pos 1801) (pos 9998) year }
    ensures { result
        ≡ int_lt (onset_of rule.now std year Edge.Start) (onset_of rule.now std year Edge.End) }
{
    comes_before(
        onset(rule, std, year, Edge::Start),
        onset(rule, std, year, Edge::End),
    )
}

/// The parts of both yearly changes, in the order of their first onsets.
#[tactic(auto, unfolding(crate::specs::PartsOf::rule_parts))]
fn push_both(
    alloc: Global,
    parts: &mut Items<Part>,
    std: &Local,
    rule: &DstRule,
    days: (Rule, Rule),
    year: i32,
    until: Option<Moment>,
) -> Result<(), NoMemory>
    requires lawful { IsLawfulRule std.now.offset rule.now }
    requires carried { is_carried_rule rule.now ≡ true }
    requires start { days.0 ≡ rule_of rule.now.start }
    requires end { days.1 ≡ rule_of rule.now.end }
    requires year { IsBetween (pos 1801) (pos 9998) year }
    requires until { IfSome until (λ m. IsWithinBounds m.seconds) }
    ensures { OnOk result (parts.new
        ≡ parts.old ++ spec.rule_parts std.now rule.now year (seconds_if_any until)) }
{
    let start = part_before(alloc, std, rule, days.0, Edge::Start, year, until);
    let end = part_before(alloc, std, rule, days.1, Edge::End, year, until);
    if starts_first(rule, std.offset, year) {
        push_two(parts, start, end)
    } else {
        push_two(parts, end, start)
    }
}

/// The parts of a footer's rule.
fn push_rule(
    alloc: Global,
    parts: &mut Items<Part>,
    footer: &Footer,
    rule: &DstRule,
    year: i32,
    until: Option<Moment>,
) -> Result<(), NoMemory>
    requires lawful { IsLawful footer.now }
    requires carried { beyond footer.now ≡ false }
    requires rule { footer.now.dst ≡ Some rule.now }
    requires year { IsBetween (pos 1801) (pos 9999) year }
    requires until { IfSome until (λ m. IsWithinBounds m.seconds) }
    ensures { OnOk result (parts.new ≡ parts.old
        ++ spec.rules_if_any footer.now.std (Some rule.now) year (seconds_if_any until)) }
{
    if year > 9998 {
        return Ok(());
    }
    match carry(footer) {
        Ok(Carried::Pair { start, end, .. }) => {
            push_both(alloc, parts, &footer.std, rule, (start, end), year, until)
        }
        _ => Ok(()),
    }
}

/// The parts of a footer's rules from a year on, up to the last supported year.
pub(crate) fn push_rules(
    alloc: Global,
    parts: &mut Items<Part>,
    footer: &Option<Footer>,
    year: i32,
    until: Option<Moment>,
) -> Result<(), NoMemory>
    requires lawful { IfSome footer.now IsLawful }
    requires carried { IsCarriedIfAny footer.now }
    requires year { IsBetween (pos 1801) (pos 9999) year }
    requires until { IfSome until (λ m. IsWithinBounds m.seconds) }
    ensures { OnOk result (parts.new
        ≡ parts.old ++ spec.rules_of footer.now year (seconds_if_any until)) }
{
    match footer {
        None => Ok(()),
        Some(footer) => match &footer.dst {
            None => Ok(()),
            Some(rule) => push_rule(alloc, parts, footer, rule, year, until),
        },
    }
}
