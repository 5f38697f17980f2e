ghost use Rattle.std.specs.Prelude.{◌≡◌, ◌<◌, pos, Some, None, IfSome, if◌then◌else◌};
ghost use Rattle.jiff_core.specs.Calendar.{days_from_civil, IsEpochDay};
ghost use Rattle.td_civil.specs.Calendar.{date_of};
ghost use Rattle.td_civil.specs.Reading as reading;

use jiff::civil;
use jiff_core::civil::Date;

/// The date `days` days after 0000-01-01.
pub(crate) fn date_after(days: u32) -> Date
    requires { days < 3_652_425 }
    ensures year { result.year ≡ pos (date_of days).year }
    ensures month { result.month ≡ (date_of days).month }
    ensures day { result.day ≡ (date_of days).day }
{
    Date::from_days_since_min(days + 3_652_059)
}

/// The day number of a date of the years 0 to 9999, counted from 1970-01-01. `None` if the date
/// does not exist.
pub(crate) fn day_number(year: u32, month: u32, day: u32) -> Option<i64>
    ensures value { result
        ≡ (if reading.is_date year month day
        then Some (days_from_civil (pos year) month day)
        else None) }
    ensures bound { IfSome result IsEpochDay }
{
    if year > 9999 || month > 12 || day > 31 {
        return None;
    }
    match civil::Date::new(year as i16, month as i8, day as i8) {
        Ok(date) => Some(date.to_plain().to_unix_epoch_day() as i64),
        Err(_) => None,
    }
}
