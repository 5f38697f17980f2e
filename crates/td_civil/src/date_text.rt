ghost use Rattle.std.specs.Prelude.{◌≡◌, ◌↔◌, IsTrue};
ghost use Rattle.td_civil.specs.Reading.{is_date_text, IsDateText};

use crate::day_numbers::day_number;
use crate::digits::{date_spelling, four_at, two_at};

/// Whether the text is a date `YYYY-MM-DD` (RFC 3339, section 5.6), of the years 0000 to 9999.
pub fn is_date(text: &[u8]) -> bool
    ensures exact { result ≡ is_date_text text.now }
    ensures dates { IsTrue result ↔ IsDateText text.now }
{
    if text.len() != 10 {
        return false;
    }
    let (year, month, day) = (four_at(text, 0), two_at(text, 5), two_at(text, 8));
    let spelling = date_spelling(year, month, day);
    if text != spelling.as_slice() {
        return false;
    }
    day_number(year, month, day).is_some()
}
