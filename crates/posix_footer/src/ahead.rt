//! The onsets that come next, one of each edge. They are kept from one change to the next, so that
//! a walk over the changes computes each onset once.
ghost use Rattle.std.specs.Prelude.{◌≡◌, ◌≤◌, ◌≤ℤ◌, ◌<ℤ◌, ◌*ℤ◌, ◌+ℤ◌, ℤ, pos, Some};
ghost use Rattle.std.specs.Option.{IfSome};
ghost use Rattle.td_civil.specs.Bounds.{HasMeaning};
ghost use Rattle.jiff_core.specs.Calendar.{IsBetween, days_from_civil};
ghost use Rattle.posix_footer.specs.Lawful.{IsLawful, IsLawfulRule};
ghost use Rattle.posix_footer.specs.NextOnset as spec;

use crate::onsets::onset;
use crate::state_at::{second_of_day, utc_year};
use crate::{DstRule, Edge, Footer};
use td_civil::Moment;

/// An onset, with its year.
#[derive(Clone, Copy, Drop)]
pub struct YearOnset {
    pub at: Moment,
    pub year: i32,
}

/// The first onset of each edge after a moment. There is none where the last one, that of 9999, is
/// not after the moment.
#[derive(Clone, Copy, Drop)]
pub struct Ahead {
    /// The moment.
    pub after: Moment,
    pub start: Option<YearOnset>,
    pub end: Option<YearOnset>,
}

/// The onsets ahead of a moment. Without a rule there are none.
pub fn ahead_of(footer: &Footer, t: Moment) -> Ahead
    requires lawful { IsLawful footer.now }
    requires meaning { HasMeaning t.seconds }
    ensures after { result.after ≡ t }
    ensures ahead { spec.IsAhead footer.now.dst footer.now.std.offset result }
{
    match &footer.dst {
        None => none_after(t),
        Some(rule) => ahead_by_rule(rule, footer.std.offset, t),
    }
}

/// The onsets ahead of the first one ahead of a moment.
pub fn ahead_after(footer: &Footer, ahead: &Ahead, next: Moment) -> Ahead
    requires lawful { IsLawful footer.now }
    requires ahead { spec.IsAhead footer.now.dst footer.now.std.offset ahead.now }
    requires next { spec.IsNext footer.now.dst footer.now.std.offset ahead.now.after.seconds
        (Some next) }
    ensures after { result.after ≡ next }
    ensures ahead { spec.IsAhead footer.now.dst footer.now.std.offset result }
{
    match &footer.dst {
        None => none_after(next),
        Some(rule) => ahead_after_by(rule, footer.std.offset, ahead, next),
    }
}

/// No onsets.
fn none_after(t: Moment) -> Ahead
    ensures { result.after ≡ t }
{
    Ahead {
        after: t,
        start: None,
        end: None,
    }
}

fn ahead_by_rule(rule: &DstRule, std: i32, t: Moment) -> Ahead
    requires lawful { IsLawfulRule std rule.now }
    requires meaning { HasMeaning t.seconds }
    ensures after { result.after ≡ t }
    ensures ahead { spec.IsAheadBy rule.now std result }
{
    let year = utc_year(t);
    let first = first_ahead(year, t);
    Ahead {
        after: t,
        start: next_of_edge(rule, std, year, first, Edge::Start, t),
        end: next_of_edge(rule, std, year, first, Edge::End, t),
    }
}

fn ahead_after_by(rule: &DstRule, std: i32, ahead: &Ahead, next: Moment) -> Ahead
    requires lawful { IsLawfulRule std rule.now }
    requires ahead { spec.IsAheadBy rule.now std ahead.now }
    requires next { spec.IsNextOnset rule.now std ahead.now.after.seconds next.seconds }
    ensures after { result.after ≡ next }
    ensures ahead { spec.IsAheadBy rule.now std result }
{
    Ahead {
        after: next,
        start: edge_after(rule, std, Edge::Start, ahead.start, next),
        end: edge_after(rule, std, Edge::End, ahead.end, next),
    }
}

/// The first onset of an edge after a moment, given the first after an earlier moment. That one is
/// not before the later moment.
fn edge_after(
    rule: &DstRule,
    std: i32,
    edge: Edge,
    first: Option<YearOnset>,
    next: Moment,
) -> Option<YearOnset>
    requires lawful { IsLawfulRule std rule.now }
    requires first { IfSome first (spec.IsYearOnset rule.now std edge) }
    ensures { (t : ℤ) → spec.IsFirstYearIfAny rule.now std edge t first → t <ℤ next.seconds
        → IfSome first (λ o. next.seconds ≤ℤ o.at.seconds)
        → spec.IsFirstYearIfAny rule.now std edge next.seconds result }
{
    match first {
        Some(come) if come.at.seconds <= next.seconds => year_after(rule, std, edge, come),
        other => other,
    }
}

/// The onset of the year after an onset's year, up to 9999.
fn year_after(rule: &DstRule, std: i32, edge: Edge, come: YearOnset) -> Option<YearOnset>
    requires lawful { IsLawfulRule std rule.now }
    requires onset { spec.IsYearOnset rule.now std edge come }
    ensures { spec.IsFirstYearIfAny rule.now std edge come.at.seconds result }
{
    if come.year < 9999 {
        Some(onset_in(rule, std, come.year + 1, edge))
    } else {
        None
    }
}

/// The onset of an edge in a year.
fn onset_in(rule: &DstRule, std: i32, year: i32, edge: Edge) -> YearOnset
    requires lawful { IsLawfulRule std rule.now }
    requires year_in { IsBetween (pos 1798) (pos 9999) year }
    ensures onset { spec.IsYearOnset rule.now std edge result }
    ensures year { result.year ≡ year }
{
    YearOnset {
        at: onset(rule, std, year, edge),
        year,
    }
}

/// The first year whose onset may be after the moment, counted from the year before the moment's.
/// Onsets of the year before fall in the first eight days of the moment's year at the latest.
fn first_ahead(year: i32, t: Moment) -> u8
    requires year_in { IsBetween (pos 1800) (pos 9998) year }
    requires meaning { HasMeaning t.seconds }
    ensures one { result ≤ 1 }
    ensures late { result ≡ 1 → ((days_from_civil year 1 1 *ℤ pos 86400) +ℤ pos 691_200)
        ≤ℤ t.seconds }
{
    if second_of_day(year, 8) <= t.seconds {
        1
    } else {
        0
    }
}

/// The first onset of an edge after a moment of the year. The onset of two years before is never
/// after the moment, and that of two years after always is. Of the three years between, those from
/// `first` on are tried, counted from the year before.
fn next_of_edge(
    rule: &DstRule,
    std: i32,
    year: i32,
    first: u8,
    edge: Edge,
    t: Moment,
) -> Option<YearOnset>
    requires lawful { IsLawfulRule std rule.now }
    requires year_in { IsBetween (pos 1800) (pos 9998) year }
    requires begun { (days_from_civil year 1 1 *ℤ pos 86400) ≤ℤ t.seconds }
    requires ahead { t.seconds <ℤ (days_from_civil (year +ℤ pos 1) 1 1 *ℤ pos 86400) }
    requires one { first ≤ 1 }
    requires late { first ≡ 1 → ((days_from_civil year 1 1 *ℤ pos 86400) +ℤ pos 691_200)
        ≤ℤ t.seconds }
    ensures { spec.IsFirstYearIfAny rule.now std edge t.seconds result }
{
    for ahead in first..3u8 {
        let candidate = onset_in(rule, std, year - 1 + i32::from(ahead), edge);
        if t.seconds < candidate.at.seconds {
            return Some(candidate);
        }
    }
    if year < 9998 {
        Some(onset_in(rule, std, year + 2, edge))
    } else {
        None
    }
}
