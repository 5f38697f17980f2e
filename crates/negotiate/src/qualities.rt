//! The qualities that an Accept field gives.
ghost use Rattle.std.specs.Prelude.{◌≡◌, ◌<◌, ◌≤◌, ◌-◌, ◌==◌, ◌||◌, length, option_copied, IsTrue};
ghost use Rattle.std.specs.Char.{is_ascii_digit};
ghost use Rattle.std.specs.List.{list_all};
ghost use Rattle.negotiate.specs.Marks.{semicolon, digit_zero, digit_one};
ghost use Rattle.td_base.specs.Texts.{pieces_left, pieces};
ghost use Rattle.negotiate.specs.Qualities as qualities;

use td_base::texts::{begins, cut, is_same, skip, trim};

/// The largest quality that the field gives to a range, in thousandths. `None` if it gives none.
pub fn quality_of_range(field: &[u8], range: &[u8]) -> Option<u16>
    ensures { result ≡ qualities.quality_of_range range.now field.now }
{
    let mut best = None;
    let mut left = Some(field);
    'elements: while let Some(rest) = left {
        let (element, after) = cut(rest, b',');
        best = larger_quality(best, quality_for(element, range));
        left = after;
    }
    best
}

/// The larger of the given qualities.
fn larger_quality(a: Option<u16>, b: Option<u16>) -> Option<u16>
    ensures { result ≡ qualities.larger_quality a b }
{
    match (a, b) {
        (None, b) => b,
        (Some(a), None) => Some(a),
        (Some(a), Some(b)) => Some(a.max(b)),
    }
}

/// The quality that an element gives to a range, in thousandths. `None` if it is for another range
/// or its quality is malformed.
fn quality_for(element: &[u8], range: &[u8]) -> Option<u16>
    ensures { result ≡ qualities.quality_for range.now (pieces semicolon element.now) }
{
    let (first, parameters) = cut(element, b';');
    if !is_same(trim(first), range) {
        return None;
    }
    quality_in(parameters)
}

/// The quality of the parameters, in thousandths: that of the first `q`, or 1000 without one.
#[tactic(auto, unfolding(crate::specs::Qualities::quality_in))]
fn quality_in(parameters: Option<&[u8]>) -> Option<u16>
    ensures { result
        ≡ qualities.quality_in (pieces_left semicolon (option_copied parameters.entry)) }
{
    let mut left = parameters;
    'parameters: while let Some(rest) = left {
        let (parameter, after) = cut(rest, b';');
        let text = trim(parameter);
        if begins(text, b"q=") {
            return quality_value(skip(text, 2));
        }
        left = after;
    }
    Some(1000)
}

/// Reads a quality in thousandths. `None` if the text is not one.
#[tactic(auto, unfolding(crate::specs::Qualities::quality_value))]
fn quality_value(text: &[u8]) -> Option<u16>
    ensures { result ≡ qualities.quality_value text.now }
{
    let (whole, rest) = text.split_first()?;
    if !is_whole(*whole) || !is_fraction(rest) {
        return None;
    }
    let value = 1000 * digit(*whole) + fraction(skip(rest, 1));
    if value > 1000 { None } else { Some(value) }
}

/// Whether the byte is `0` or `1`.
fn is_whole(byte: u8) -> bool
    ensures { result ≡ (byte == digit_zero || byte == digit_one) }
{
    byte == b'0' || byte == b'1'
}

/// Whether the rest is empty, or a point and up to three digits.
fn is_fraction(rest: &[u8]) -> bool
    ensures is { result ≡ qualities.is_fraction rest.now }
    ensures short { IsTrue result → length rest.now ≤ 4 }
{
    match rest {
        [] => true,
        [point, digits @ ..] => *point == b'.' && digits.len() <= 3 && has_digits(digits),
    }
}

/// Whether all bytes are digits.
fn has_digits(digits: &[u8]) -> bool
    ensures { result ≡ list_all is_ascii_digit digits.now }
{
    digits.iter().all(|byte| byte.is_ascii_digit())
}

/// The value of the digits after a point, in thousandths.
fn fraction(digits: &[u8]) -> u16
    requires { length digits.now ≤ 3 }
    ensures value { result ≡ qualities.fraction 100 digits.now }
    ensures small { result < 30000 }
{
    match digits {
        [a] => 100 * digit(*a),
        [a, b] => 100 * digit(*a) + 10 * digit(*b),
        [a, b, c] => 100 * digit(*a) + 10 * digit(*b) + digit(*c),
        _ => 0,
    }
}

/// The value of a digit.
fn digit(byte: u8) -> u16
    ensures value { result ≡ byte - digit_zero }
    ensures small { result < 256 }
{
    u16::from(byte.saturating_sub(b'0'))
}
