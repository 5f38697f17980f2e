ghost use Rattle.std.specs.Prelude.{◌≡◌, ◌↔◌, [], map, IsTrue};
ghost use Rattle.admission.specs.Rules.{AreKept, first_refusing};

use crate::{Chosen, Delta, Kept, ask};
use std::alloc::Global;
use td_base::Items;

/// The chosen rules, in their order, together with the tests of their kinds.
#[derive(Drop)]
pub struct Rules<'k> {
    kept: &'k [Kept],
    pub chosen: Items<Chosen>,
    ghost known: { AreKept (map (λ k. k.kind) kept.now) chosen },
}

impl<'k> Rules<'k> {
    /// Chosen rules. A test must be kept for the kind of each.
    pub fn new(kept: &'k [Kept], chosen: Vec<Chosen>) -> Rules<'k>
        requires { AreKept (map (λ k. k.kind) kept.now) chosen.items }
        ensures { result.chosen ≡ chosen.items }
    {
        Rules {
            kept,
            chosen: Items::from(chosen),
        }
    }

    /// No rule, so every release is allowed.
    pub fn none(alloc: Global) -> Rules<'k>
        ensures { result.chosen ≡ [] }
    {
        Rules {
            kept: &[],
            chosen: Items::new(alloc),
        }
    }

    /// Whether no rule is chosen.
    pub fn is_empty(&self) -> bool
        ensures { IsTrue result ↔ (self.now.chosen ≡ []) }
    {
        self.chosen.len() == 0
    }

    /// The position, counted from 1, of the first rule that refuses the changes of a release. None
    /// if no rule refuses them. It allocates nothing.
    pub fn ask(&self, delta: &Delta) -> Option<u32>
        ensures { result ≡ first_refusing self.now.chosen delta.now }
    {
        ask(self.kept, self.chosen.as_slice(), delta)
    }
}
