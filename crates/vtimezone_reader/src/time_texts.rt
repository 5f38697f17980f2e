//! Reads local times, moments and offsets (RFC 5545, sections 3.3.5 and 3.3.14).
ghost use Rattle.std.specs.Prelude.{◌≡◌, ◌<◌, ◌+◌, ◌-◌, length, Some, None, IfSome};
ghost use Rattle.std.specs.Prelude.{if◌then◌else◌};
ghost use Rattle.std.specs.Str.{all_ascii_digits};
ghost use Rattle.jiff_core.specs.Calendar.{IsWithin};
ghost use Rattle.td_civil.specs.Bounds.{HasMeaning};
ghost use Rattle.td_civil.specs.Reading as reading;
ghost use Rattle.vtimezone.specs.ReadValues as values;
ghost use Rattle.vtimezone_reader.specs.Separated.{separated};
ghost use Rattle.vtimezone_reader.specs.TimeTexts as times;

use td_civil::{HI, LO, Moment, moment_of};

/// The moment at which UTC shows a local time `YYYYMMDDTHHMMSS`, in seconds since 1970.
fn local_in(text: &[u8]) -> Option<i64>
    ensures value { result ≡ values.local_in text.now }
    ensures bound { IfSome result (IsWithin 400_000_000_000) }
{
    if !is_date_time(text) {
        return None;
    }
    moment_in(&separated(text))
}

/// Whether the text is eight digits, `T` and six digits.
fn is_date_time(text: &[u8]) -> bool
    ensures value { result ≡ values.is_date_time text.now }
{
    text.len() == 15 && are_digits(&text[..8]) && text[8] == b'T' && are_digits(&text[9..])
}

/// The moment of a text `YYYY-MM-DDTHH:MM:SSZ`, in seconds since 1970.
fn moment_in(text: &[u8]) -> Option<i64>
    ensures value { result ≡ reading.moment_in text.now }
    ensures bound { IfSome result (IsWithin 400_000_000_000) }
{
    match moment_of(text) {
        Ok(moment) => Some(moment.seconds),
        Err(_) => None,
    }
}

/// The same time, with the separators of a moment's text.
fn separated(text: &[u8]) -> [u8; 20]
    requires { length text.now ≡ 15 }
    ensures { result ≡ separated text.now }
{
    [
        text[0], text[1], text[2], text[3], b'-', text[4], text[5], b'-', text[6], text[7],
        text[8], text[9], text[10], b':', text[11], text[12], b':', text[13], text[14], b'Z',
    ]
}

/// The moment at which clocks show a local time, if it is a supported one. The offset of the clocks
/// is in seconds east of UTC.
pub(crate) fn moment_by(offset: i32, text: &[u8]) -> Option<Moment>
    ensures value { result ≡ times.moment_by offset text.now }
    ensures bound { IfSome result (λ m. HasMeaning m.seconds) }
{
    let shown = local_in(text)?;
    let seconds = shown - i64::from(offset);
    if LO <= seconds && seconds < HI {
        Some(Moment { seconds })
    } else {
        None
    }
}

/// The moment of a UTC time, which ends with `Z`.
#[tactic(auto, unfolding(vtimezone::specs::ReadValues::utc_in))]
pub(crate) fn utc_in(text: &[u8]) -> Option<Moment>
    ensures { result ≡ values.utc_in text.now }
{
    if text.len() < 15 || &text[15..] != b"Z".as_slice() {
        return None;
    }
    let seconds = local_in(&text[..15])?;
    Some(Moment { seconds })
}

pub(crate) fn are_digits(text: &[u8]) -> bool
    ensures { result ≡ all_ascii_digits text.now }
{
    for byte in text {
        if !byte.is_ascii_digit() {
            return false;
        }
    }
    true
}

/// The number written by the two digits at an index.
fn two_at(text: &[u8], at: usize) -> u32
    requires { at + 1 < length text.now }
    ensures value { result ≡ reading.two_at text.now at }
    ensures bound { result < 3000 }
{
    10 * digit_value(text[at]) + digit_value(text[at + 1])
}

fn digit_value(byte: u8) -> u32
    ensures value { result ≡ byte - 48 }
    ensures bound { result < 256 }
{
    u32::from(byte.saturating_sub(b'0'))
}

/// The number of seconds that `HHMM` or `HHMMSS` stand for.
fn size_in(digits: &[u8]) -> Option<u32>
    ensures value { result
        ≡ (if values.is_hours digits.now then Some (values.size_in digits.now) else None) }
    ensures bound { IfSome result (λ size. size < 86_400) }
{
    if digits.len() != 4 && digits.len() != 6 || !are_digits(digits) {
        return None;
    }
    let (hours, minutes, seconds) = (two_at(digits, 0), two_at(digits, 2), seconds_in(digits));
    if hours >= 24 || minutes >= 60 || seconds >= 60 {
        return None;
    }
    Some(3_600 * hours + 60 * minutes + seconds)
}

fn seconds_in(digits: &[u8]) -> u32
    ensures value { result ≡ values.seconds_in digits.now }
    ensures bound { result < 3000 }
{
    if digits.len() == 6 {
        two_at(digits, 4)
    } else {
        0
    }
}

/// An offset in seconds east of UTC, below a day: a sign, hours, minutes and optional seconds.
#[tactic(auto, unfolding(vtimezone::specs::ReadValues::offset_in))]
pub(crate) fn offset_in(text: &[u8]) -> Option<i32>
    ensures value { result ≡ values.offset_in text.now }
    ensures bound { IfSome result (IsWithin 86_399) }
{
    let [sign, digits @ ..] = text else {
        return None;
    };
    let size = size_in(digits)?;
    signed_by(*sign, size)
}

fn signed_by(sign: u8, size: u32) -> Option<i32>
    requires { size < 86_400 }
    ensures value { result ≡ values.signed_by sign size }
    ensures bound { IfSome result (IsWithin 86_399) }
{
    if sign == b'+' {
        Some(size as i32)
    } else if sign == b'-' && size != 0 {
        Some(-(size as i32))
    } else {
        None
    }
}
