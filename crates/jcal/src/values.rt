//! The values of properties, in buffers of fixed size.
ghost use Rattle.std.specs.Prelude.{◌≡◌, ◌+◌, ◌<◌, ◌≤◌, ◌++◌, length};
ghost use Rattle.jiff_core.specs.Calendar.{IsWithin};
ghost use Rattle.td_civil.specs.Bounds.{IsWithinBounds};
ghost use Rattle.td_civil.specs.Stamp.{two_digits};
ghost use Rattle.recurrence.specs.Spellable.{IsSafe};
ghost use Rattle.recurrence.specs.Weekdays as weekdays;
ghost use Rattle.jcal.specs.Values as spec;

use td_base::ShortText;
use td_civil::{Moment, local_stamp};

/// A buffer for an offset, or for a weekday with a number.
pub(crate) type ValueText = ShortText<16>;

/// The text of a local time (RFC 7265, section 3.6.5), by clocks at this offset, in seconds east of
/// UTC.
pub(crate) fn local_text(moment: Moment, offset: i32) -> [u8; 19]
    requires moment { IsWithinBounds moment.seconds }
    requires offset { IsWithin 86_399 offset }
    ensures text { result ≡ spec.local_text moment.seconds offset }
    ensures safe { IsSafe result }
{
    let s = local_stamp(moment, offset);
    [
        s[0], s[1], s[2], s[3], b'-', s[4], s[5], b'-', s[6], s[7], s[8], s[9], s[10], b':', s[11],
        s[12], b':', s[13], s[14],
    ]
}

fn two_digits(number: u32) -> [u8; 2]
    requires { number < 100 }
    ensures { result ≡ two_digits number }
{
    [b'0' + (number / 10 % 10) as u8, b'0' + (number % 10) as u8]
}

/// The text of an offset, given in seconds east of UTC (RFC 7265, section 3.6.13).
#[tactic(auto, unfolding(crate::specs::Values::jcal_offset_text))]
pub(crate) fn offset_value(offset: i32) -> ValueText
    requires { IsWithin 86_399 offset }
    ensures { result ≡ spec.jcal_offset_text offset }
{
    let size = offset.unsigned_abs();
    let mut text = ValueText::new();
    text.append(&[if offset < 0 { b'-' } else { b'+' }]);
    text.append(&two_digits(size / 3_600));
    text.append(b":");
    text.append(&two_digits(size % 3_600 / 60));
    append_seconds(&mut text, size % 60);
    text
}

fn append_seconds(text: &mut ValueText, seconds: u32)
    requires seconds { seconds < 60 }
    requires room { length text.old + 3 ≤ 16 }
    ensures { text.new ≡ text.old ++ spec.jcal_seconds_text seconds }
{
    if seconds != 0 {
        text.append(b":");
        text.append(&two_digits(seconds));
    }
}

/// The two letters of a weekday, where 0 is Sunday (RFC 5545, section 3.3.10).
#[tactic(auto, unfolding(recurrence::specs::Weekdays::weekday_name))]
pub(crate) fn weekday_name(weekday: u8) -> [u8; 2]
    ensures { result ≡ weekdays.weekday_name weekday }
{
    if weekday == 0 {
        *b"SU"
    } else if weekday == 1 {
        *b"MO"
    } else if weekday == 2 {
        *b"TU"
    } else if weekday == 3 {
        *b"WE"
    } else if weekday == 4 {
        *b"TH"
    } else if weekday == 5 {
        *b"FR"
    } else {
        *b"SA"
    }
}
