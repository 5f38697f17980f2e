//! The decision of chosen rules on a release.
ghost use Rattle.std.specs.Prelude.{◌≡◌, map, true};
ghost use Rattle.admission.specs.Rules.{AreKept, allows, first_refusing, is_kept, same_kind};

use crate::{Chosen, Delta, Kept, RuleKind};

/// The position, counted from 1, of the first chosen rule that refuses the changes of a release.
/// None if no rule refuses them. It allocates nothing.
pub fn ask(kept: &[Kept], chosen: &[Chosen], delta: &Delta) -> Option<u32>
    requires { AreKept (map (λ k. k.kind) kept.now) chosen.now }
    ensures { result ≡ first_refusing chosen.now delta.now }
{
    for at in 0..chosen.len() {
        if !is_allowed(kept, chosen[at], delta) {
            return Some(at as u32 + 1);
        }
    }
    None
}

/// Whether a rule allows the changes of a release, by the test that is kept for its kind.
fn is_allowed(kept: &[Kept], rule: Chosen, delta: &Delta) -> bool
    requires { is_kept (map (λ k. k.kind) kept.now) rule.kind ≡ true }
    ensures { result ≡ allows rule.kind rule.number delta.now }
{
    for test in kept {
        if is_kind(rule.kind, test.kind) {
            return (test.test)(delta, rule.number);
        }
    }
    false
}

/// Whether two kinds are equal.
fn is_kind(one: RuleKind, two: RuleKind) -> bool
    ensures { result ≡ same_kind one two }
{
    one == two
}
