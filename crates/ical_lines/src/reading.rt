//! Reading of content lines.
ghost use Rattle.std.specs.Prelude.{◌≡◌, ◌≢◌, ◌<◌, ◌≤◌, [], ◌++◌, ◌∷◌, ℕ, List, Ok, Err, IfOk};
ghost use Rattle.std.specs.Prelude.{IfErr, IsErr, IsTrue, length, map, if◌then◌else◌, Some, None};
ghost use Rattle.std.specs.Prelude.{option_copied};
ghost use Rattle.ical_lines.specs.Unfolding as spec;
ghost use Rattle.ical_lines.specs.LineLengths.{line_len, joined_with};

use crate::BadLine;
use std::alloc::Global;
use td_base::{Bytes, Items, NoMemory};

/// The content lines of a text, unfolded and without CRLF.
///
/// A line that begins with a space or a tab continues the line before it. A first line that does so
/// stays as it is. Empty lines are kept. A text is checked before any memory is allocated.
pub fn unfold(alloc: Global, text: &[u8]) -> Result<Items<Bytes>, BadLine>
    ensures found { IfOk result (λ lines. spec.unfolded text.now ≡ Ok lines) }
    ensures judged { IsErr (spec.unfolded text.now) → result ≡ spec.unfolded text.now }
    ensures fault { IfErr result
        (λ fault. fault ≢ BadLine.NoMemory → spec.unfolded text.now ≡ Err fault) }
{
    if let Some(place) = first_bad(text) {
        return Err(BadLine::BadLine(place));
    }
    let lines = joined(alloc, text)?;
    Ok(lines)
}

/// The position of the first line that does not end with CRLF. `None` if all do.
fn first_bad(text: &[u8]) -> Option<usize>
    ensures { result ≡ spec.first_bad 0 (spec.cut_lines text.now) }
{
    let mut left = text;
    'lines: while !left.is_empty() {
        let (line, rest) = left.split_at(first_line_len(left));
        if !is_whole(line) {
            return Some(text.len() - left.len());
        }
        left = rest;
    }
    None
}

/// The unfolded lines of a text whose lines all end with CRLF.
fn joined(alloc: Global, text: &[u8]) -> Result<Items<Bytes>, NoMemory>
    ensures { IfOk result (λ lines. lines
        ≡ spec.joined (map spec.content (spec.cut_lines text.now))) }
{
    let mut lines = Items::new(alloc);
    let mut begun = None;
    let mut left = text;
    'lines: while !left.is_empty() {
        let (line, rest) = left.split_at(first_line_len(left));
        begun = Some(add_line(alloc, &mut lines, begun, content_of(line))?);
        left = rest;
    }
    let lines = close(lines, begun)?;
    Ok(lines)
}

/// The length of the first line with its line feed, or of the text if it has none.
fn first_line_len(text: &[u8]) -> usize
    ensures len { result ≡ line_len text.now }
    ensures inside { result ≤ length text.now }
    ensures some { 0 < length text.now → 0 < result }
{
    for (at, byte) in text.iter().enumerate() {
        if *byte == b'\n' {
            return at + 1;
        }
    }
    text.len()
}

/// Whether the line ends with CRLF.
#[tactic(auto, unfolding(crate::specs::Unfolding::is_whole))]
fn is_whole(line: &[u8]) -> bool
    ensures { result ≡ spec.is_whole line.now }
{
    &line[line.len().saturating_sub(2)..] == b"\r\n".as_slice()
}

/// The line without its CRLF.
fn content_of(line: &[u8]) -> &[u8]
    ensures { result.now ≡ spec.content line.now }
{
    &line[..line.len().saturating_sub(2)]
}

/// Reads one more line. The last line so far may be continued by it; returns the line that may be
/// continued next.
#[tactic(auto, unfolding(crate::specs::Unfolding::joined_on))]
fn add_line(
    alloc: Global,
    lines: &mut Items<Bytes>,
    begun: Option<Bytes>,
    line: &[u8],
) -> Result<Bytes, NoMemory>
    ensures { IfOk result (λ now. (rest : List (List ℕ))
        → lines.new ++ spec.joined_on now rest ≡ lines.old ++ joined_with begun (line.now ∷ rest)) }
{
    let Some(mut begun) = begun else {
        return Bytes::from_slice(alloc, line);
    };
    if begins_blank(line) {
        begun.append(&line[1..])?;
        return Ok(begun);
    }
    lines.push(begun)?;
    Bytes::from_slice(alloc, line)
}

/// Whether the line begins with a space or a tab.
fn begins_blank(line: &[u8]) -> bool
    ensures is { result ≡ spec.begins_blank line.now }
    ensures inside { IsTrue result → 0 < length line.now }
{
    match line {
        [] => false,
        [first, ..] => *first == b' ' || *first == b'\t',
    }
}

/// The lines, with the last one if it exists.
#[tactic(auto, unfolding(crate::specs::Unfolding::joined_on))]
fn close(mut lines: Items<Bytes>, last: Option<Bytes>) -> Result<Items<Bytes>, NoMemory>
    ensures { IfOk result (λ all. all ≡ lines ++ joined_with last []) }
{
    if let Some(line) = last {
        lines.push(line)?;
    }
    Ok(lines)
}
