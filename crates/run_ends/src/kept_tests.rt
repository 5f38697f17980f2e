ghost use Rattle.std.specs.Prelude.{map};
ghost use Rattle.admission.specs.Rules.{KeepsAll};
ghost use Rattle.subscribers.specs.Wishes.{WantsAll};

use admission::Kept;
use subscribers::Want;

/// The tests that the caller of a run keeps: at least one for each kind of rule, and for each kind
/// of wish.
#[derive(Clone, Copy)]
pub struct KeptTests<'t> {
    pub kept: &'t [Kept],
    pub wants: &'t [Want],
    pub ghost keeps: { KeepsAll (map (λ k. k.kind) kept.now) },
    pub ghost wants_all: { WantsAll (map (λ w. w.kind) wants.now) },
}
