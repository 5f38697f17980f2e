ghost use Rattle.std.specs.Prelude.{◌≡◌, ℤ, ◌+ℤ◌, IfOk, IfSome, OnErr};
ghost use Rattle.jiff_core.specs.Calendar.{IsWithin};
ghost use Rattle.td_civil.specs.Bounds.{IsWithinBounds};
ghost use Rattle.td_civil.specs.Stamp.{Spells, ShowsLocal};
ghost use Rattle.td_civil.specs.Calendar.{text_of, local_text_of};
ghost use Rattle.td_civil.specs.Reading.{moment_in};
ghost use Rattle.td_civil.specs.Answer.{moment_read};
ghost use Rattle.td_civil.specs.declared.moment_type.TheConstants.{CYCLE};

use crate::digits::{digit, two_at};
use crate::fields::Fields;
use crate::{BadMoment, Moment};

/// Reads a text `YYYY-MM-DDTHH:MM:SSZ` in UTC, of the years 0000 to 9999. Any other text is
/// [`BadMoment`].
pub fn moment_of(text: &[u8]) -> Result<Moment, BadMoment>
    ensures found { IfOk result (λ m. Spells text.now m.seconds) }
    ensures fault { OnErr result ((m : ℤ) → ¬ Spells text.now m) }
    ensures exact { moment_read result ≡ moment_in text.now }
{
    match seconds_in(text) {
        Some(seconds) => Ok(Moment { seconds }),
        None => Err(BadMoment),
    }
}

/// Writes the moment in UTC as `YYYY-MM-DDTHH:MM:SSZ` (RFC 3339, section 5.6).
pub fn utc_text(m: Moment) -> [u8; 20]
    requires { IsWithinBounds m.seconds }
    ensures spells { Spells result m.seconds }
    ensures exact { result ≡ text_of m.seconds }
{
    Fields::at(m.seconds).spelling()
}

/// The text of the moment one period of the calendar later, from that of a moment: the year is 400
/// more.
pub fn text_later(text: &[u8; 20]) -> [u8; 20]
    ensures { (m : ℤ) → IsWithinBounds m → IsWithinBounds (m +ℤ CYCLE) → text.now ≡ text_of m
        → result ≡ text_of (m +ℤ CYCLE) }
{
    let century = two_at(text.as_slice(), 0) + 4;
    [
        digit(century / 10),
        digit(century),
        text[2],
        text[3],
        text[4],
        text[5],
        text[6],
        text[7],
        text[8],
        text[9],
        text[10],
        text[11],
        text[12],
        text[13],
        text[14],
        text[15],
        text[16],
        text[17],
        text[18],
        text[19],
    ]
}

/// The local time of a moment as `YYYYMMDDTHHMMSS` (RFC 5545, section 3.3.5). `offset` is in
/// seconds east of UTC, less than a day to either side.
pub fn local_stamp(m: Moment, offset: i32) -> [u8; 15]
    requires moment { IsWithinBounds m.seconds }
    requires offset { IsWithin 86_399 offset }
    ensures shows { ShowsLocal result (m.seconds +ℤ offset) }
    ensures exact { result ≡ local_text_of m.seconds offset }
{
    Fields::at(m.seconds + offset as i64).basic_spelling()
}

fn seconds_in(text: &[u8]) -> Option<i64>
    ensures value { result ≡ moment_in text.now }
    ensures bound { IfSome result (IsWithin 400_000_000_000) }
{
    if text.len() != 20 {
        return None;
    }
    let fields = Fields::in_text(text);
    let spelling = fields.spelling();
    if text != spelling.as_slice() {
        return None;
    }
    fields.seconds()
}
