//! The two copies of what is shown, between which readers and publisher alternate.
ghost use Rattle.std.specs.Prelude.{◌≡◌, Option, Some, refl, option_map};
ghost use Rattle.publication.specs.declared.view.View.{View};
ghost use Rattle.publication.specs.Histories.{values};
ghost use Rattle.publication.specs.ShownRule.{home_of};
ghost use Rattle.publication.specs.ShownRule.{told_of};

use crate::edition::Edition;
use crate::view::View;
use left_right::Absorb;
use std::alloc::AllocError;
use td_base::Value;

/// A copy that each operation replaces as a whole.
pub trait Sets<V: Value>: Absorb<Edition<V>> + Drop {
    ghost content: { Self → Option (View V) };

    ghost of_state: { Self.State → Option (View V) };

    /// Whether nothing is shown yet.
    fn is_vacant(&self) -> bool;

    ghost content_is: { (x : Self) → content x ≡ of_state (Self.state x) };

    ghost sets: { (s : Self.State) (op : _) → of_state (Self.applied s op)
        ≡ Some (told_of (values op.prefix.log) (home_of op.prefix.book)) };
}

/// One copy: empty until the first value is shown.
#[derive(Drop)]
pub struct Shown<V: Value> {
    pub edition: Option<Edition<V>>,
}

impl<V: Value> Absorb<Edition<V>> for Shown<V> {
    type State = Option<View<V>>;

    ghost state = { λ x.
        option_map (λ i. told_of (values i.prefix.log) (home_of i.prefix.book)) x.edition };

    ghost applied = { λ _ op. Some (told_of (values op.prefix.log) (home_of op.prefix.book)) };

    fn absorb_first(
        &mut self,
        operation: &Edition<V>,
        _other: &Shown<V>,
    ) -> Result<(), AllocError> {
        self.edition = Some(operation.again()?);
        Ok(())
    }
}

impl<V: Value> Sets<V> for Shown<V> {
    ghost content = { λ x.
        option_map (λ i. told_of (values i.prefix.log) (home_of i.prefix.book)) x.edition };

    ghost of_state = { λ s. s };

    ghost content_is = { λ x. refl };

    ghost sets = { λ s op. refl };

    fn is_vacant(&self) -> bool {
        self.edition.is_none()
    }
}
