//! The state of local time at a moment.
ghost use Rattle.std.specs.Prelude.{◌≡◌, ◌≤◌, ◌≤ℤ◌, ◌<ℤ◌, ◌*ℤ◌, ◌+ℤ◌, pos, if◌then◌else◌};
ghost use Rattle.td_civil.specs.Bounds.{HasMeaning};
ghost use Rattle.jiff_core.specs.Calendar.{IsBetween, days_from_civil};
ghost use Rattle.posix_footer.specs.Lawful.{IsLawful, IsLawfulRule};
ghost use Rattle.posix_footer.specs.StateAt as spec;

use crate::onsets::onset;
use crate::{DstRule, Edge, Footer};
use td_civil::{Local, Moment, new_year_day, year_of};

/// The state of local time that a footer gives at a moment. It is the state after the last onset
/// that is not after the moment, whatever the year of that onset. If a start and an end fall on one
/// moment, the start counts. Without a rule standard time always holds.
pub fn at(footer: &Footer, t: Moment) -> Local
    requires lawful { IsLawful footer.now }
    requires meaning { HasMeaning t.seconds }
    ensures value { result ≡ spec.state_of footer.now t.seconds }
    ensures follows { spec.FollowsLastChange footer.now.std footer.now.dst t.seconds result }
{
    match &footer.dst {
        None => footer.std.copy(),
        Some(rule) => state_by_rule(&footer.std, rule, t),
    }
}

/// The state at a moment, for a footer with a rule.
fn state_by_rule(std: &Local, rule: &DstRule, t: Moment) -> Local
    requires lawful { IsLawfulRule std.now.offset rule.now }
    requires meaning { HasMeaning t.seconds }
    ensures value { result ≡ spec.state_by std.now (Some rule.now) t.seconds }
    ensures follows { spec.FollowsLastChange std.now (Some rule.now) t.seconds result }
{
    if is_daylight(rule, std.offset, t) {
        rule.dst.copy()
    } else {
        std.copy()
    }
}

/// Whether daylight saving time holds at a moment.
fn is_daylight(rule: &DstRule, std: i32, t: Moment) -> bool
    requires lawful { IsLawfulRule std rule.now }
    requires meaning { HasMeaning t.seconds }
    ensures value { result ≡ spec.is_daylight rule.now std t.seconds }
    ensures change { spec.IsLastChange rule.now std t.seconds
        (if result then Edge.Start else Edge.End) }
{
    let year = utc_year(t);
    let first = first_back(year, t);
    let started = latest(rule, std, year, first, Edge::Start, t);
    let ended = latest(rule, std, year, first, Edge::End, t);
    ended <= started
}

/// The first year whose onset may be at or before the moment, counted back from the year after the
/// moment's. Onsets of the year after fall in the last nine days of the moment's year at the
/// earliest.
fn first_back(year: i32, t: Moment) -> u8
    requires year_in { IsBetween (pos 1800) (pos 9998) year }
    requires meaning { HasMeaning t.seconds }
    ensures one { result ≤ 1 }
    ensures early { result ≡ 1 → t.seconds
        <ℤ ((days_from_civil year 1 1 *ℤ pos 86400) +ℤ pos 30_758_400) }
{
    if t.seconds < second_of_day(year, 356) {
        1
    } else {
        0
    }
}

/// The latest onset of an edge that is not after a moment of the year. The time and the offset move
/// an onset by less than eight days. A day form names at most the first day after its year. So the
/// onset of two years before is never after the moment, and that of two years after always is. Of
/// the three years between, those from `first` on are tried, counted back from the year after.
fn latest(rule: &DstRule, std: i32, year: i32, first: u8, edge: Edge, t: Moment) -> i64
    requires lawful { IsLawfulRule std rule.now }
    requires year_in { IsBetween (pos 1800) (pos 9998) year }
    requires begun { (days_from_civil year 1 1 *ℤ pos 86400) ≤ℤ t.seconds }
    requires ahead { t.seconds <ℤ (days_from_civil (year +ℤ pos 1) 1 1 *ℤ pos 86400) }
    requires one { first ≤ 1 }
    requires early { first ≡ 1 → t.seconds
        <ℤ ((days_from_civil year 1 1 *ℤ pos 86400) +ℤ pos 30_758_400) }
    ensures { spec.IsLatest rule.now std edge t.seconds result }
{
    for back in first..3u8 {
        let candidate = onset(rule, std, year + 1 - i32::from(back), edge);
        if candidate.seconds <= t.seconds {
            return candidate.seconds;
        }
    }
    onset(rule, std, year - 2, edge).seconds
}

/// The second, from 1970-01-01T00:00:00Z, at which a day of a year begins in UTC. Days count from
/// 0.
pub(crate) fn second_of_day(year: i32, day: u16) -> i64
    requires year_in { IsBetween (pos 1800) (pos 9998) year }
    ensures { result ≡ (days_from_civil year 1 1 +ℤ pos day) *ℤ pos 86400 }
{
    (new_year_day(year as i16) + i64::from(day)) * 86_400
}

/// The year of a moment in UTC.
pub(crate) fn utc_year(t: Moment) -> i32
    requires { HasMeaning t.seconds }
    ensures year_in { IsBetween (pos 1800) (pos 9998) result }
    ensures begun { (days_from_civil result 1 1 *ℤ pos 86400) ≤ℤ t.seconds }
    ensures ahead { t.seconds <ℤ (days_from_civil (result +ℤ pos 1) 1 1 *ℤ pos 86400) }
{
    year_of(t)
}
