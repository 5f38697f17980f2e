//! Parsing the filter of an operator's subscription.
ghost use Rattle.std.specs.Prelude.{◌≡◌, true, Some, None, if◌then◌else◌, IfOk, OnErr};
ghost use Rattle.std.specs.Option.{option_map};
ghost use Rattle.console.specs.Lines as spec;
ghost use Rattle.console.specs.Words.{is_beginning, meant_moment};

use crate::words::{is_beginning, meant_moment};
use std::alloc::Global;
use subscribers::{Wish, WishKind};
use td_base::{Bytes, NoMemory};
use td_civil::{LO, Moment};

/// Parses a wish: `any`, `under TEXT` or `past MOMENT`. Only the second allocates memory.
#[tactic(auto, unfolding(crate::specs::Lines::wish_in))]
pub fn read_wish(alloc: Global, text: &[u8]) -> Result<Option<Wish>, NoMemory>
    ensures found { IfOk result (λ wish. wish ≡ spec.wish_in text.now) }
    ensures memory { OnErr result (spec.HasWishText (spec.watch_of text.now)) }
{
    if text == b"any".as_slice() {
        return Ok(Some(every_change(alloc)));
    }
    if let Some(beginning) = text.strip_prefix(b"under ") {
        return read_beginning(alloc, beginning);
    }
    match text.strip_prefix(b"past ") {
        Some(word) => Ok(read_before(alloc, word)),
        None => Ok(None),
    }
}

/// The wish for every change.
fn every_change(alloc: Global) -> Wish
    ensures { result ≡ spec.every_change }
{
    Wish {
        kind: WishKind::Any,
        under: Bytes::new(alloc),
        before: Moment { seconds: LO },
    }
}

/// The wish for zones whose identifier begins with a text, if any identifier may begin so.
fn read_beginning(alloc: Global, text: &[u8]) -> Result<Option<Wish>, NoMemory>
    ensures found { IfOk result (λ wish. wish
        ≡ (if is_beginning text.now then Some (spec.changes_under text.now) else None)) }
    ensures memory { OnErr result (is_beginning text.now ≡ true) }
{
    if !is_beginning(text) {
        return Ok(None);
    }
    let wish = Wish {
        kind: WishKind::Under,
        under: Bytes::from_slice(alloc, text)?,
        before: Moment { seconds: LO },
    };
    Ok(Some(wish))
}

/// The wish for changes that begin before the moment that a word encodes, if it encodes one.
fn read_before(alloc: Global, word: &[u8]) -> Option<Wish>
    ensures { result ≡ option_map spec.changes_before (meant_moment word.now) }
{
    match meant_moment(word) {
        Some(before) => Some(Wish {
            kind: WishKind::Past,
            under: Bytes::new(alloc),
            before,
        }),
        None => None,
    }
}
