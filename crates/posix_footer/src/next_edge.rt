//! The first onset after a moment, and the state that follows it.
ghost use Rattle.std.specs.Prelude.{◌≡◌, Some, if◌then◌else◌};
ghost use Rattle.std.specs.Option.{option_map, IfSome};
ghost use Rattle.td_civil.specs.Bounds.{HasMeaning};
ghost use Rattle.posix_footer.specs.Lawful.{IsLawful, IsLawfulRule};
ghost use Rattle.posix_footer.specs.NextOnset as spec;
ghost use Rattle.posix_footer.specs.StateAt.{state_by, state_of};

use crate::ahead::{Ahead, YearOnset, ahead_of};
use crate::{DstRule, Footer};
use td_civil::{Local, Moment};

/// An onset, and the state that follows it.
#[derive(Drop)]
pub struct Change {
    pub at: Moment,
    pub state: Local,
}

/// The first onset after a moment, of either edge and of the years up to 9999. The state that the
/// footer gives stays the same until then. It need not change then, since a start may fall into
/// daylight saving time.
pub fn next_onset(footer: &Footer, t: Moment) -> Option<Moment>
    requires lawful { IsLawful footer.now }
    requires meaning { HasMeaning t.seconds }
    ensures { spec.IsNext footer.now.dst footer.now.std.offset t.seconds result }
{
    match next_change(footer, t) {
        None => None,
        Some(change) => Some(change.at),
    }
}

/// The same onset with the state from then on. That is the state at the onset, derived from its
/// edge.
pub fn next_change(footer: &Footer, t: Moment) -> Option<Change>
    requires lawful { IsLawful footer.now }
    requires meaning { HasMeaning t.seconds }
    ensures next { spec.IsNext footer.now.dst footer.now.std.offset t.seconds
        (option_map (λ c. c.at) result) }
    ensures state { IfSome result (λ c. c.state ≡ state_of footer.now c.at.seconds) }
{
    change_ahead(footer, &ahead_of(footer, t))
}

/// The same change, by the onsets ahead of a moment.
pub fn change_ahead(footer: &Footer, ahead: &Ahead) -> Option<Change>
    requires lawful { IsLawful footer.now }
    requires ahead { spec.IsAhead footer.now.dst footer.now.std.offset ahead.now }
    ensures next { spec.IsNext footer.now.dst footer.now.std.offset ahead.now.after.seconds
        (option_map (λ c. c.at) result) }
    ensures state { IfSome result (λ c. c.state ≡ state_of footer.now c.at.seconds) }
{
    match &footer.dst {
        None => None,
        Some(rule) => change_by_rule(&footer.std, rule, ahead),
    }
}

fn change_by_rule(std: &Local, rule: &DstRule, ahead: &Ahead) -> Option<Change>
    requires lawful { IsLawfulRule std.now.offset rule.now }
    requires ahead { spec.IsAheadBy rule.now std.now.offset ahead.now }
    ensures next { spec.IsNext (Some rule.now) std.now.offset ahead.now.after.seconds
        (option_map (λ c. c.at) result) }
    ensures state { IfSome result (λ c. c.state ≡ state_by std.now (Some rule.now) c.at.seconds) }
{
    let start = onset_of(ahead.start);
    let end = onset_of(ahead.end);
    match earlier(start, end) {
        None => None,
        Some(at) => Some(Change {
            at,
            state: state_from(std, rule, start, at),
        }),
    }
}

/// The moment of an onset, if one is given.
fn onset_of(onset: Option<YearOnset>) -> Option<Moment>
    ensures { result ≡ option_map (λ o. o.at) onset }
{
    match onset {
        None => None,
        Some(onset) => Some(onset.at),
    }
}

/// The state from an onset on: daylight saving time if the next start is not after it, otherwise
/// standard time.
fn state_from(std: &Local, rule: &DstRule, start: Option<Moment>, at: Moment) -> Local
    ensures { result ≡ (if spec.has_started start at.seconds then rule.now.dst else std.now) }
{
    match start {
        Some(start) if start.seconds <= at.seconds => rule.dst.copy(),
        _ => std.copy(),
    }
}

/// The earlier of two moments; if only one is given, that one.
fn earlier(one: Option<Moment>, two: Option<Moment>) -> Option<Moment>
    ensures { result ≡ spec.earlier one two }
{
    match (one, two) {
        (None, other) => other,
        (Some(m), None) => Some(m),
        (Some(m), Some(n)) => Some(if m.seconds <= n.seconds { m } else { n }),
    }
}
