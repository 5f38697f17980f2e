//! What each kind of rule allows.
ghost use Rattle.std.specs.Prelude.{◌≡◌};
ghost use Rattle.std.specs.List.{list_all};
ghost use Rattle.admission.specs.Rules.{allows, is_from};

use crate::{Changed, Delta, RuleKind};
use td_civil::Moment;

/// Whether a release changes at most this number of zones.
pub fn changes_at_most(delta: &Delta, most: i64) -> bool
    ensures { result ≡ allows RuleKind.MaxChanged most delta.now }
{
    most >= 0 && delta.changed.len() as u64 <= most as u64
}

/// Whether a release changes nothing before a moment, given in seconds since 1970-01-01T00:00:00Z.
pub fn changes_no_past(delta: &Delta, moment: i64) -> bool
    ensures { result ≡ allows RuleKind.NoPastChange moment delta.now }
{
    are_from(moment, delta.changed.as_slice())
}

/// Whether no change begins before the moment. A change that never begins passes.
fn are_from(moment: i64, changed: &[Changed]) -> bool
    ensures { result ≡ list_all (λ c. is_from moment c.first) changed.now }
{
    for change in changed {
        if !is_from(moment, change.first) {
            return false;
        }
    }
    true
}

/// Whether a change does not begin before the moment. One that never begins passes.
fn is_from(moment: i64, first: Option<Moment>) -> bool
    ensures { result ≡ is_from moment first }
{
    match first {
        None => true,
        Some(first) => moment <= first.seconds,
    }
}
