//! The path and the query of a target, and the segments of the path.
ghost use Rattle.std.specs.Prelude.{◌≡◌, ◌≤◌, length, IfOk};
ghost use Rattle.std.specs.List.{after_first, before_first, position_or_len};
ghost use Rattle.target.specs.Paths as paths;

use percent_encoding::{DecodeError, percent_decode};
use std::alloc::Global;
use td_base::texts::{begins, skip};
use td_base::{Bytes, Items, NoMemory};

/// The path and the query of a target.
#[tactic(auto, unfolding(crate::specs::Paths::path_and_query))]
pub fn path_and_query(target: &[u8]) -> &[u8]
    ensures { result.now ≡ paths.path_and_query target.now }
{
    if begins(target, b"/") {
        return target;
    }
    if begins(target, b"http://") {
        return after_authority(skip(target, 7));
    }
    if begins(target, b"https://") {
        return after_authority(skip(target, 8));
    }
    &[]
}

/// The bytes before the first question mark, and those after it.
pub fn cut_query(text: &[u8]) -> (&[u8], &[u8])
    ensures path { result.0.now ≡ before_first paths.is_question_mark text.now }
    ensures query { result.1.now ≡ after_first paths.is_question_mark text.now }
{
    let at = question_mark(text);
    (&text[..at], skip(&text[at..], 1))
}

/// The position of the first question mark, or the length.
fn question_mark(text: &[u8]) -> usize
    ensures place { result ≡ position_or_len paths.is_question_mark text.now }
    ensures inside { result ≤ length text.now }
{
    text.iter()
        .position(|&byte| byte == b'?')
        .unwrap_or(text.len())
}

/// The decoded segments of a path. `None` if one is not UTF-8.
pub fn decode_path(alloc: Global, path: &[u8]) -> Result<Option<Items<Bytes>>, NoMemory>
    ensures { IfOk result
        (λ segments. segments ≡ paths.decode_segments (paths.raw_segments path.now)) }
{
    let mut segments = Items::new(alloc);
    for raw in skip(path, 1).split(|&byte| byte == b'/') {
        let Some(segment) = decode_segment(alloc, raw)? else {
            return Ok(None);
        };
        segments.push(segment)?;
    }
    Ok(Some(segments))
}

/// The decoded segment. `None` if it is not UTF-8.
fn decode_segment(alloc: Global, raw: &[u8]) -> Result<Option<Bytes>, NoMemory>
    ensures { IfOk result (λ segment. segment ≡ paths.decode_segment raw.now) }
{
    match percent_decode(raw).decode_utf8(alloc) {
        Ok(text) => Ok(Some(Bytes::from_slice(alloc, text.as_bytes())?)),
        Err(DecodeError::Utf8(_)) => Ok(None),
        Err(DecodeError::OutOfMemory) => Err(NoMemory),
    }
}

/// The text after the authority that it begins with.
fn after_authority(text: &[u8]) -> &[u8]
    ensures { result.now ≡ paths.after_authority text.now }
{
    let at = end_of_authority(text);
    &text[at..]
}

/// The position at which the authority at the beginning ends.
fn end_of_authority(text: &[u8]) -> usize
    ensures place { result ≡ position_or_len paths.ends_authority text.now }
    ensures inside { result ≤ length text.now }
{
    text.iter()
        .position(|&byte| byte == b'/' || byte == b'?')
        .unwrap_or(text.len())
}
