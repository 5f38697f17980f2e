ghost use Rattle.std.specs.Prelude.{◌≡◌, Bool, ℤ, FitsSigned};
ghost use Rattle.std.specs.Int.{w64};
ghost use Rattle.admission.specs.Rules.{allows};

use crate::{Delta, RuleKind};

/// A test of the changes of a release, with a rule's number.
pub type Test = Box<dyn Fn(&Delta, i64) -> bool>;

/// The test of a kind of rule. It accepts any changes and any number, and returns true exactly
/// where a rule of its kind allows the changes.
#[derive(Drop)]
pub struct Kept {
    pub kind: RuleKind,
    pub test: Test,
    ghost callable: { Test.IsAlwaysCallable test },
    ghost exact: { (delta : _) (number : ℤ) (answer : Bool) → FitsSigned w64 number
        → Test.post test delta number answer → answer ≡ allows kind number delta.now },
}

impl Kept {
    /// A test that returns true exactly where a rule of this kind allows the changes.
    pub fn new(kind: RuleKind, test: Test) -> Kept
        requires callable { Test.IsAlwaysCallable test }
        requires exact { (delta : _) (number : ℤ) (answer : Bool) → FitsSigned w64 number
            → Test.post test delta number answer → answer ≡ allows kind number delta.now }
        ensures { result.kind ≡ kind }
    {
        Kept { kind, test }
    }
}
