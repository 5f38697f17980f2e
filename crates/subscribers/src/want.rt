ghost use Rattle.std.specs.Prelude.{◌≡◌, Bool};
ghost use Rattle.subscribers.specs.Wishes.{takes_by};

use crate::{Wish, WishKind};
use admission::Changed;

/// A test of a change against a wish.
pub type WantTest = Box<dyn Fn(&Changed, &Wish) -> bool>;

/// The test of a kind of wish. It accepts any change and any wish, and returns true exactly where a
/// wish of its kind takes the change.
#[derive(Drop)]
pub struct Want {
    pub kind: WishKind,
    pub test: WantTest,
    ghost callable: { WantTest.IsAlwaysCallable test },
    ghost exact: { (change : _) (wish : _) (answer : Bool)
        → WantTest.post test change wish answer → answer ≡ takes_by kind change.now wish.now },
}

impl Want {
    /// A test that returns true exactly where a wish of this kind takes a change.
    pub fn new(kind: WishKind, test: WantTest) -> Want
        requires callable { WantTest.IsAlwaysCallable test }
        requires exact { (change : _) (wish : _) (answer : Bool)
            → WantTest.post test change wish answer
            → answer ≡ takes_by kind change.now wish.now }
        ensures { result.kind ≡ kind }
    {
        Want { kind, test }
    }
}
