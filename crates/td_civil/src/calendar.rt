ghost use Rattle.std.specs.Prelude.{◌≡◌, ◌↔◌, ◌+ℤ◌, pos, neg_ℤ, unsigned_abs, IsSome, IfSome};
ghost use Rattle.jiff_core.specs.Calendar.{IsBetween, IsCivilDate, IsEpochDay, days_from_civil};
ghost use Rattle.td_civil.specs.Bounds.{IsWithinBounds};
ghost use Rattle.td_civil.specs.Calendar.{stamp_of, date_of, HasDay, IsInYear};

use crate::Moment;
use crate::day_numbers::{date_after, day_number};
use crate::fields::Fields;
use jiff::civil;

/// The year in UTC. The moment must lie within the bounds [`LO`](crate::LO) and [`HI`](crate::HI).
pub fn year_of(m: Moment) -> i32
    requires { IsWithinBounds m.seconds }
    ensures within { IsInYear result m.seconds }
    ensures exact { result ≡ pos (stamp_of m.seconds).year }
{
    Fields::at(m.seconds).year as i32
}

/// The day number of a date of the years 1798 to 9999, counted from 1970-01-01. `None` for any
/// other year and for a date that does not exist.
pub fn day_of(year: i32, month: u8, day: u8) -> Option<i64>
    ensures found { IsSome result ↔ HasDay year month day }
    ensures value { IfSome result (λ n. n ≡ days_from_civil year month day) }
{
    if year < 1798 || year > 9999 {
        return None;
    }
    day_number(year.unsigned_abs(), month as u32, day as u32)
}

/// The day number of 1 January of a year from 1798 to 9999, counted from 1970-01-01.
pub fn new_year_day(year: i16) -> i64
    requires { IsBetween (pos 1798) (pos 9999) year }
    ensures value { result ≡ days_from_civil year 1 1 }
    ensures bound { IsEpochDay result }
{
    i64::from(civil::date(year, 1, 1).to_plain().to_unix_epoch_day())
}

/// A date of the proleptic Gregorian calendar.
#[derive(Clone, Copy, PartialEq, Eq)]
pub struct CivilDate {
    pub year: i32,
    /// Counted from 1.
    pub month: u8,
    /// The day of the month, counted from 1.
    pub day: u8,
}

/// The date of a day number, counted from 1970-01-01, of the years 0000 to 9999.
pub fn date_of_day(number: i64) -> CivilDate
    requires { IsBetween (neg_ℤ (pos 719_528)) (pos 2_932_896) number }
    ensures there { IsCivilDate result.year result.month result.day }
    ensures number { number ≡ days_from_civil result.year result.month result.day }
    ensures year { result.year ≡ pos (date_of (unsigned_abs (number +ℤ pos 719_528))).year }
    ensures month { result.month ≡ (date_of (unsigned_abs (number +ℤ pos 719_528))).month }
    ensures day { result.day ≡ (date_of (unsigned_abs (number +ℤ pos 719_528))).day }
{
    let date = date_after((number + 719_528) as u32);
    CivilDate {
        year: i32::from(date.year),
        month: date.month as u8,
        day: date.day as u8,
    }
}
