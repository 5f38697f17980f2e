//! Texts of header fields, which several crates read: cut at separators, trimmed, and compared
//! without case. Nothing here allocates.
ghost use Rattle.std.specs.Prelude.{◌≡◌, ◌∷◌, ◌<◌, length, take, drop, reverse, option_copied};
ghost use Rattle.std.specs.Prelude.{IfSome};
ghost use Rattle.std.specs.Str.{str_eq_ignore_ascii_case};
ghost use Rattle.td_base.specs.TargetForm.{begins_any_case};
ghost use Rattle.td_base.specs.Texts as texts;

use memchr::memchr;

/// The bytes before the first separator, and those after it if a separator exists.
#[tactic(auto, unfolding(crate::specs::Texts::pieces))]
pub fn cut(text: &[u8], separator: u8) -> (&[u8], Option<&[u8]>)
    ensures cut { texts.pieces separator text.now
        ≡ result.0.now ∷ texts.pieces_left separator (option_copied result.1) }
    ensures shorter { IfSome result.1 (λ rest. length rest.now < length text.now) }
{
    match memchr(separator, text) {
        Some(at) => (&text[..at], Some(&text[at + 1..])),
        None => (text, None),
    }
}

/// The text without spaces and tabs at its ends.
#[tactic(auto, unfolding(crate::specs::Texts::trim))]
pub fn trim(text: &[u8]) -> &[u8]
    ensures { result.now ≡ texts.trim text.now }
{
    trim_end(trim_start(text))
}

/// The text without spaces and tabs at its start.
fn trim_start(text: &[u8]) -> &[u8]
    ensures { result.now ≡ texts.skip_blanks text.now }
{
    let mut left = text;
    'blanks: while let Some((first, rest)) = left.split_first() {
        let byte = *first;
        if byte != b' ' && byte != b'\t' {
            return left;
        }
        left = rest;
    }
    left
}

/// The text without spaces and tabs at its end.
fn trim_end(text: &[u8]) -> &[u8]
    ensures { result.now ≡ reverse (texts.skip_blanks (reverse text.now)) }
{
    let mut left = text;
    'blanks: while let Some((last, rest)) = left.split_last() {
        let byte = *last;
        if byte != b' ' && byte != b'\t' {
            return left;
        }
        left = rest;
    }
    left
}

/// The text without its first `count` bytes.
pub fn skip(text: &[u8], count: usize) -> &[u8]
    ensures { result.now ≡ drop count text.now }
{
    text.get(count..).unwrap_or(&[])
}

/// The first `count` bytes of the text, or all of a shorter one.
pub fn start(text: &[u8], count: usize) -> &[u8]
    ensures { result.now ≡ take count text.now }
{
    &text[..count.min(text.len())]
}

/// Whether two texts are equal, ignoring ASCII case.
pub fn is_same(text: &[u8], other: &[u8]) -> bool
    ensures { result ≡ str_eq_ignore_ascii_case text.now other.now }
{
    text.eq_ignore_ascii_case(other)
}

/// Whether the text begins with these bytes, ignoring ASCII case.
pub fn begins(text: &[u8], prefix: &[u8]) -> bool
    ensures { result ≡ begins_any_case prefix.now text.now }
{
    is_same(start(text, prefix.len()), prefix)
}
