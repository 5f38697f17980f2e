//! The notice of a wish, by the tests that are kept.
ghost use Rattle.std.specs.Prelude.{◌≡◌, IfOk, map, true};
ghost use Rattle.subscribers.specs.News as spec;
ghost use Rattle.subscribers.specs.Wishes.{WantsAll, is_wanted, same_wish_kind, takes};

use crate::{Names, Notice, Want, Wish, WishKind};
use admission::{Changed, Delta};
use std::alloc::Global;
use td_base::{Items, NoMemory};

/// The notice of the release at a place, with the changes that a wish takes. None if it takes none.
pub fn notice_of(
    alloc: Global,
    wants: &[Want],
    wish: &Wish,
    place: u32,
    delta: &Delta,
) -> Result<Option<Notice>, NoMemory>
    requires { WantsAll (map (λ w. w.kind) wants.now) }
    ensures { IfOk result (λ notice. notice ≡ spec.notice_of wish.now place delta.now) }
{
    let tzids = taken_from(alloc, wants, wish, delta.changed.as_slice())?;
    Ok(notice_if_any(place, tzids))
}

/// The identifiers of those changed zones that a wish takes, in their order.
fn taken_from(
    alloc: Global,
    wants: &[Want],
    wish: &Wish,
    changed: &[Changed],
) -> Result<Names, NoMemory>
    requires { WantsAll (map (λ w. w.kind) wants.now) }
    ensures { IfOk result (λ tzids. tzids ≡ spec.taken_from wish.now changed.now) }
{
    let mut tzids = Items::new(alloc);
    for change in changed {
        if is_taken(wants, wish, change) {
            tzids.push(change.tzid.clone_in(alloc)?)?;
        }
    }
    Ok(tzids)
}

/// The notice of a place, if it has a zone.
fn notice_if_any(place: u32, tzids: Names) -> Option<Notice>
    ensures { result ≡ spec.notice_if_any place tzids }
{
    if tzids.len() == 0 {
        return None;
    }
    Some(Notice { place, tzids })
}

/// Whether a wish takes a change, by the test that is kept for its kind.
fn is_taken(wants: &[Want], wish: &Wish, change: &Changed) -> bool
    requires { is_wanted (map (λ w. w.kind) wants.now) wish.now.kind ≡ true }
    ensures { result ≡ takes wish.now change.now }
{
    for want in wants {
        if is_kind(wish.kind, want.kind) {
            return (want.test)(change, wish);
        }
    }
    false
}

/// Whether two kinds are equal.
fn is_kind(one: WishKind, two: WishKind) -> bool
    ensures { result ≡ same_wish_kind one two }
{
    one == two
}
