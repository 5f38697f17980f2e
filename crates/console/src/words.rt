//! Words that an operator writes: numbers, moments, and prefixes of identifiers.
ghost use Rattle.std.specs.Prelude.{◌≡◌, ◌≤◌, ◌<◌, ◌^◌};
ghost use Rattle.std.specs.List.{list_all};
ghost use Rattle.std.specs.Option.{IfSome, option_map};
ghost use Rattle.td_civil.specs.Bounds.{HasMeaning};
ghost use Rattle.console.specs.Words as words;

use td_base::{MOST_IDENTIFIER_BYTES, read_decimal};
use td_civil::{HI, LO, Moment, moment_of};

/// Parses a decimal number between `least` and `most`, both included.
pub fn read_number(word: &[u8], least: u64, most: u64) -> Option<u32>
    requires { most < 2 ^ 32 }
    ensures value { result ≡ words.number_in_word least most word.now }
    ensures some { IfSome result (λ n. least ≤ n) }
    ensures few { IfSome result (λ n. n ≤ most) }
{
    match read_decimal(word) {
        Some(number) if least <= number && number <= most => Some(number as u32),
        _ => None,
    }
}

/// Parses a moment of UTC from 1800 on, before 9999.
pub fn meant_moment(word: &[u8]) -> Option<Moment>
    ensures value { option_map (λ m. m.seconds) result ≡ words.meant_moment word.now }
    ensures meant { IfSome result (λ m. HasMeaning m.seconds) }
{
    match moment_of(word) {
        Ok(moment) => if_meant(moment),
        Err(_) => None,
    }
}

/// The moment, if it is one that has a meaning.
fn if_meant(moment: Moment) -> Option<Moment>
    ensures value { option_map (λ m. m.seconds) result ≡ words.if_meant moment.seconds }
    ensures meant { IfSome result (λ m. HasMeaning m.seconds) }
{
    if LO <= moment.seconds && moment.seconds < HI {
        Some(moment)
    } else {
        None
    }
}

/// Whether a text may be a prefix of zone identifiers: 1 to 64 bytes that they may have.
pub fn is_beginning(text: &[u8]) -> bool
    ensures { result ≡ words.is_beginning text.now }
{
    !text.is_empty() && text.len() <= MOST_IDENTIFIER_BYTES && are_identifier_bytes(text)
}

/// Whether identifiers may contain each byte of a text.
fn are_identifier_bytes(text: &[u8]) -> bool
    ensures { result ≡ list_all words.is_identifier_byte text.now }
{
    text.iter().all(|&byte| is_identifier_byte(byte))
}

/// Whether identifiers may contain a byte.
fn is_identifier_byte(byte: u8) -> bool
    ensures { result ≡ words.is_identifier_byte byte }
{
    byte.is_ascii_alphanumeric() || matches!(byte, b'_' | b'+' | b'-' | b'.' | b'/')
}
