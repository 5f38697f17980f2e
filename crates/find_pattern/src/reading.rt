//! Reading a pattern.
ghost use Rattle.std.specs.Prelude.{◌≡◌, ◌≢◌, ◌<◌, ◌≤◌, length, drop, IfOk, IfErr};
ghost use Rattle.find_pattern.specs.Patterns as patterns;
ghost use Rattle.find_pattern.specs.Pieces as pieces;

use crate::{BadPattern, Pattern};
use std::alloc::Global;
use td_base::Bytes;

/// The first item of a text that is not at its end.
#[derive(Clone, Copy)]
pub enum Piece {
    /// A byte to be matched, and the number of bytes that write it.
    Byte(u8, usize),
    LastStar,
    Fault,
}

/// The first item of the rest of a text.
fn first_piece(left: &[u8]) -> Piece
    requires { 0 < length left.now }
    ensures piece { result ≡ pieces.first_piece left.now }
    ensures len { pieces.IsWithin (length left.now) result }
{
    match left {
        [b'*'] => Piece::LastStar,
        [b'\\', byte @ (b'*' | b'\\'), ..] => Piece::Byte(*byte, 2),
        [b'*' | b'\\', ..] => Piece::Fault,
        [byte, ..] => Piece::Byte(*byte, 1),
        [] => Piece::Fault,
    }
}

/// Reads the pattern of a text, or returns the position of the first fault.
#[tactic(auto, unfolding(crate::specs::Patterns::pattern))]
pub fn read(alloc: Global, text: &[u8]) -> Result<Pattern, BadPattern>
    ensures found { IfOk result (λ p. patterns.pattern text.now ≡ Ok p) }
    ensures fault { IfErr result
        (λ fault. fault ≢ BadPattern.NoMemory → patterns.pattern text.now ≡ Err fault) }
{
    match text {
        [b'*'] => Ok(Pattern {
            lead: true,
            trail: true,
            text: Bytes::new(alloc),
        }),
        [b'*', ..] => Ok(Pattern {
            lead: true,
            ..read_from(alloc, text, 1)?
        }),
        _ => read_from(alloc, text, 0),
    }
}

/// Reads the rest from a position on, where only the last byte may be a star.
fn read_from(alloc: Global, text: &[u8], start: usize) -> Result<Pattern, BadPattern>
    requires { start ≤ length text.now }
    ensures found { IfOk result (λ p. patterns.read_from start (drop start text.now) ≡ Ok p) }
    ensures fault { IfErr result
        (λ fault. fault ≢ BadPattern.NoMemory
        → patterns.read_from start (drop start text.now) ≡ Err fault) }
{
    let mut literal = Bytes::new(alloc);
    let mut at = start;
    'pieces: while at < text.len() {
        match first_piece(&text[at..]) {
            Piece::Byte(byte, len) => {
                literal.push(byte)?;
                at += len;
            }
            Piece::LastStar => return Ok(without_lead(literal, true)),
            Piece::Fault => return Err(BadPattern::BadPattern(at)),
        }
    }
    Ok(without_lead(literal, false))
}

/// A pattern without a star at its start.
fn without_lead(text: Bytes, trail: bool) -> Pattern
    ensures { result ≡ patterns.literal text trail }
{
    Pattern {
        lead: false,
        trail,
        text,
    }
}
