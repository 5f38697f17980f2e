ghost use Rattle.std.specs.Prelude.{◌≡◌, map};
ghost use Rattle.subscribers.specs.Wishes.{WantsAll};

use admission::Rules;
use subscribers::Want;

/// What each install borrows: the rules to check its release against, and one test for each kind of
/// wish.
#[derive(Drop)]
pub struct InstallPolicy<'k> {
    pub rules: Rules<'k>,
    pub wants: &'k [Want],
    ghost known: { WantsAll (map (λ w. w.kind) wants.now) },
}

impl<'k> InstallPolicy<'k> {
    /// Borrows rules, and tests of each kind of wish.
    pub fn new(rules: Rules<'k>, wants: &'k [Want]) -> InstallPolicy<'k>
        requires { WantsAll (map (λ w. w.kind) wants.now) }
        ensures { result.rules.chosen ≡ rules.entry.chosen }
    {
        InstallPolicy { rules, wants }
    }
}
