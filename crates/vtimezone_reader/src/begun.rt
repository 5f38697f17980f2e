//! Where a walk to the state at a moment begins.
ghost use Rattle.std.specs.Prelude.{◌≡◌, ◌⊎◌, ◌≤ℤ◌, ◌-ℤ◌, pos, true, IfSome};
ghost use Rattle.std.specs.List.{AllByRecursion};
ghost use Rattle.jiff_core.specs.Calendar.{IsBetween};
ghost use Rattle.vtimezone_reader.specs.Onsets as onsets;
ghost use Rattle.vtimezone_reader.specs.Sound.{IsSoundPart};
ghost use Rattle.vtimezone_reader.specs.Turns as spec;

use crate::onsets::late_of_rule;
use recurrence::Part;
use td_civil::{HI, LO, Moment};

/// The second before an onset that is not after a moment. The onset is as late as can be found
/// without a walk. If no part has begun, it is the second before 1800. After that onset, up to the
/// moment, there are at most a few onsets of rules, and none of dates.
pub(crate) fn before_onset(parts: &[Part], t: Moment) -> Moment
    requires sound { AllByRecursion IsSoundPart parts.now }
    requires range { IsBetween LO HI t.seconds }
    ensures { spec.IsBeforeOnset parts.now t.seconds result.seconds }
{
    match late_onset(parts, t) {
        Some(onset) => second_before(onset),
        None => second_before(Moment { seconds: LO }),
    }
}

fn second_before(moment: Moment) -> Moment
    requires { IsBetween LO HI moment.seconds }
    ensures { result.seconds ≡ moment.seconds -ℤ pos 1 }
{
    Moment {
        seconds: moment.seconds - 1,
    }
}

/// A recent onset of the parts that is not after a moment.
fn late_onset(parts: &[Part], t: Moment) -> Option<Moment>
    requires sound { AllByRecursion IsSoundPart parts.now }
    requires range { IsBetween LO HI t.seconds }
    ensures { IfSome result (λ m. spec.HasBegun parts.now t.seconds m.seconds) }
{
    let mut late = None;
    for part in parts {
        late = later_of(late, late_of_part(part, t));
    }
    late
}

/// The later of two moments, if both are given; else the one that is.
fn later_of(a: Option<Moment>, b: Option<Moment>) -> Option<Moment>
    ensures { (result ≡ a) ⊎ (result ≡ b) }
{
    match a {
        None => b,
        Some(x) => match b {
            None => a,
            Some(y) => { if x.seconds < y.seconds { b } else { a } }
        },
    }
}

/// A recent onset of a part that is not after a moment: its start, a date, or one of its rule.
fn late_of_part(part: &Part, t: Moment) -> Option<Moment>
    requires sound { IsSoundPart part.now }
    requires range { IsBetween LO HI t.seconds }
    ensures { IfSome result (λ m. spec.IsOnsetBy part.now t.seconds m.seconds) }
{
    let start = if_by(part.start, t);
    let date = late_date(part.dates.as_slice(), t);
    later_of(later_of(start, date), late_if_ruled(part, t))
}

fn late_if_ruled(part: &Part, t: Moment) -> Option<Moment>
    requires sound { IsSoundPart part.now }
    requires range { IsBetween LO HI t.seconds }
    ensures { IfSome result (λ m. (onsets.is_onset_of part.now.rule part.now m.seconds ≡ true)
        × (m.seconds ≤ℤ t.seconds)) }
{
    match &part.rule {
        None => None,
        Some(rule) => late_of_rule(part, rule, t),
    }
}

/// The moment, if it is not after another; else None.
fn if_by(moment: Moment, t: Moment) -> Option<Moment>
    ensures { IfSome result (λ m. (m ≡ moment) × (m.seconds ≤ℤ t.seconds)) }
{
    if moment.seconds <= t.seconds {
        Some(moment)
    } else {
        None
    }
}

fn late_date(dates: &[Moment], t: Moment) -> Option<Moment>
    ensures { IfSome result (λ m. (onsets.is_among dates.now m.seconds ≡ true)
        × (m.seconds ≤ℤ t.seconds)) }
{
    let mut late = None;
    for date in dates {
        late = later_of(late, if_by(*date, t));
    }
    late
}
