//! Which changes each kind of wish takes.
ghost use Rattle.std.specs.Prelude.{◌≡◌};
ghost use Rattle.subscribers.specs.Wishes.{takes_by};

use crate::{Wish, WishKind};
use admission::Changed;

/// Whether a wish for every change takes a change: it always does.
pub fn is_any(change: &Changed, wish: &Wish) -> bool
    ensures { result ≡ takes_by WishKind.Any change.now wish.now }
{
    true
}

/// Whether the identifier of a changed zone begins with the bytes of a wish.
pub fn is_under(change: &Changed, wish: &Wish) -> bool
    ensures { result ≡ takes_by WishKind.Under change.now wish.now }
{
    change.tzid.as_slice().starts_with(wish.under.as_slice())
}

/// Whether a change begins, if it does at all, before the moment of a wish.
pub fn is_past(change: &Changed, wish: &Wish) -> bool
    ensures { result ≡ takes_by WishKind.Past change.now wish.now }
{
    match change.first {
        None => false,
        Some(first) => first.seconds < wish.before.seconds,
    }
}
