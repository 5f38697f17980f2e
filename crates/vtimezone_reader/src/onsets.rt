//! The onsets of a rule: the next one, and a recent one.
ghost use Rattle.std.specs.Prelude.{◌≡◌, ◌<◌, ◌≤ℤ◌, ◌<ℤ◌, ◌+ℤ◌, ◌-ℤ◌, ◌*ℤ◌, ℤ, pos, neg_ℤ, Some};
ghost use Rattle.std.specs.Prelude.{IfSome, true, int_lt};
ghost use Rattle.jiff_core.specs.Calendar.{IsBetween, IsWithin};
ghost use Rattle.recurrence.specs.Valid.{IsValid};
ghost use Rattle.vtimezone_reader.specs.Observing as next;
ghost use Rattle.vtimezone_reader.specs.Onsets as onsets;
ghost use Rattle.vtimezone_reader.specs.Sound.{IsSoundPart};

use recurrence::{Part, Rule, occurrence};
use td_civil::{HI, LO, Moment, date_of_day};

/// The moment of the rule's one day in a year.
fn onset_in(rule: &Rule, offset: i32, year: i32) -> Moment
    requires valid { IsValid rule.now }
    requires offset { IsWithin 86_399 offset }
    requires year { IsBetween (pos 1800) (pos 9999) year }
    ensures { next.IsOnsetIn rule.now offset year result.seconds }
{
    let (day, second) = occurrence(rule, year);
    moment_on(day, second, offset)
}

/// The moment of a second of a day, by clocks at this offset, in seconds east of UTC.
fn moment_on(day: i64, second: u32, offset: i32) -> Moment
    requires day { IsBetween (neg_ℤ (pos 719_528)) (pos 2_932_896) day }
    requires second { second < 86_400 }
    requires offset { IsWithin 86_399 offset }
    ensures { result.seconds ≡ ((day *ℤ pos 86_400) +ℤ pos second) -ℤ offset }
{
    Moment {
        seconds: day * 86_400 + i64::from(second) - i64::from(offset),
    }
}

/// The year that clocks at this offset show, from 1800 on. The offset is in seconds east of UTC.
fn year_shown(offset: i32, t: Moment) -> i32
    requires t { IsBetween (LO -ℤ pos 1) HI t.seconds }
    requires offset { IsWithin 86_399 offset }
    ensures { next.IsYearShown offset t.seconds result }
{
    let day = (t.seconds + i64::from(offset)).div_euclid(86_400);
    date_of_day(day).year.max(1800)
}

/// The moment of the rule in the following year, if that is 9999 at most.
fn onset_after(rule: &Rule, offset: i32, year: i32) -> Option<Moment>
    requires valid { IsValid rule.now }
    requires offset { IsWithin 86_399 offset }
    requires year { IsBetween (pos 1800) (pos 9999) year }
    ensures { next.IsOnsetAfter rule.now offset year result }
{
    if year < 9999 {
        Some(onset_in(rule, offset, year + 1))
    } else {
        None
    }
}

/// The first of two moments of a rule, one in each of two years, that is later than `t`.
fn later(t: Moment, this: Moment, after: Option<Moment>) -> Option<Moment>
    ensures { result ≡ next.later t.seconds this after }
{
    if t.seconds < this.seconds {
        Some(this)
    } else {
        after
    }
}

/// The moment, if it is before the end and not after the last onset; else None.
fn kept(moment: Option<Moment>, until: Option<Moment>, end: Moment) -> Option<Moment>
    ensures { result ≡ next.kept_if moment until end.seconds }
{
    let moment = moment?;
    if moment.seconds >= end.seconds {
        return None;
    }
    match until {
        None => Some(moment),
        Some(last) => {
            if last.seconds < moment.seconds {
                None
            } else {
                Some(moment)
            }
        }
    }
}

/// The next onset of the rule before the end, or None. The search begins after a moment that is not
/// before the part's start.
pub(crate) fn next_of_rule(part: &Part, rule: &Rule, t: Moment, end: Moment) -> Option<Moment>
    requires sound { IsSoundPart part.now }
    requires rule { part.now.rule ≡ Some rule.now }
    requires from { part.now.start.seconds ≤ℤ t.seconds }
    requires range { t.seconds <ℤ end.seconds }
    requires end { end.seconds ≤ℤ HI }
    ensures { next.IsNextWhere (onsets.is_rule_onset part.now rule.now)
        t.seconds end.seconds result }
{
    let year = year_shown(part.from, t);
    let this = onset_in(rule, part.from, year);
    let after = onset_after(rule, part.from, year);
    kept(later(t, this, after), part.until, end)
}

/// A recent onset of the rule that is not after a moment, if the part has begun. It is the onset in
/// the year that clocks show then, or in the year before.
pub(crate) fn late_of_rule(part: &Part, rule: &Rule, t: Moment) -> Option<Moment>
    requires sound { IsSoundPart part.now }
    requires rule { part.now.rule ≡ Some rule.now }
    requires range { IsBetween LO HI t.seconds }
    ensures { IfSome result (λ m. next.IsLate part.now rule.now t.seconds m.seconds) }
{
    let last = last_by(part.until, t);
    if is_before(last, part.start) {
        return None;
    }
    late_from(part, rule, year_shown(part.from, last), last)
}

/// The onset of the rule in a year, or else that in the year before, if it is not after a moment.
fn late_from(part: &Part, rule: &Rule, year: i32, last: Moment) -> Option<Moment>
    requires sound { IsSoundPart part.now }
    requires rule { part.now.rule ≡ Some rule.now }
    requires year { IsBetween (pos 1800) (pos 9999) year }
    requires last { (v : ℤ) → v ≤ℤ last.seconds → onsets.is_not_after part.now.until v ≡ true }
    ensures { IfSome result (λ m. next.IsLate part.now rule.now last.seconds m.seconds) }
{
    match late_in(part, rule, year, last) {
        Some(onset) => Some(onset),
        None => late_before(part, rule, year, last),
    }
}

fn late_before(part: &Part, rule: &Rule, year: i32, last: Moment) -> Option<Moment>
    requires sound { IsSoundPart part.now }
    requires rule { part.now.rule ≡ Some rule.now }
    requires year { IsBetween (pos 1800) (pos 9999) year }
    requires last { (v : ℤ) → v ≤ℤ last.seconds → onsets.is_not_after part.now.until v ≡ true }
    ensures { IfSome result (λ m. next.IsLate part.now rule.now last.seconds m.seconds) }
{
    if year > 1800 {
        late_in(part, rule, year - 1, last)
    } else {
        None
    }
}

/// The onset of the rule in a year, if it is not after a moment. The rule must not have ended by
/// that moment.
fn late_in(part: &Part, rule: &Rule, year: i32, last: Moment) -> Option<Moment>
    requires sound { IsSoundPart part.now }
    requires rule { part.now.rule ≡ Some rule.now }
    requires year { IsBetween (pos 1800) (pos 9999) year }
    requires last { (v : ℤ) → v ≤ℤ last.seconds → onsets.is_not_after part.now.until v ≡ true }
    ensures { IfSome result (λ m. next.IsLate part.now rule.now last.seconds m.seconds) }
{
    within(onset_in(rule, part.from, year), part.start, last)
}

/// The moment, if it is not before a first one and not after a last one; else None.
fn within(moment: Moment, first: Moment, last: Moment) -> Option<Moment>
    ensures { IfSome result
        (λ m. next.IsFromTo moment.seconds first.seconds last.seconds m.seconds) }
{
    if first.seconds <= moment.seconds && moment.seconds <= last.seconds {
        Some(moment)
    } else {
        None
    }
}

pub(crate) fn is_before(a: Moment, b: Moment) -> bool
    ensures { result ≡ int_lt a.seconds b.seconds }
{
    a.seconds < b.seconds
}

/// The moment, or the last onset of a rule if that is earlier.
fn last_by(until: Option<Moment>, t: Moment) -> Moment
    ensures { next.IsLastOnsetBy until t.seconds result.seconds }
{
    match until {
        Some(last) if last.seconds < t.seconds => last,
        _ => t,
    }
}
