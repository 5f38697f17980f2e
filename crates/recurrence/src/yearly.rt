//! The day of a rule in a year.
ghost use Rattle.std.specs.Prelude.{◌≡◌, ◌+◌, ◌-◌, ◌≤◌, pos, ◌+ℤ◌};
ghost use Rattle.jiff_core.specs.Calendar.{IsBetween, IsWithin, IsEpochDay, days_in_month};
ghost use Rattle.jiff_core.specs.Calendar.{days_from_civil};
ghost use Rattle.recurrence.specs.Valid.{IsMonth, IsOrdinal, IsFirstDay, IsValidForm, IsValid};
ghost use Rattle.recurrence.specs.Occurs.{IsOccurrence};
ghost use Rattle.recurrence.specs.Row as row;

use crate::{Form, Rule};
use jiff::civil;
use td_civil::new_year_day;

/// The number of days from a Sunday before all dates of `jiff` to 1970-01-01. The first of those
/// dates is 1 January of the year -9999.
const EARLY_SUNDAY: i64 = 4_371_588;

/// The rule's one day in the year, in days from 1970-01-01, and the second of that day by the
/// clocks in force before it. It allocates nothing.
pub fn occurrence(rule: &Rule, year: i32) -> (i64, u32)
    requires valid { IsValid rule.now }
    requires year_in { IsBetween (pos 1800) (pos 9999) year }
    ensures day { IsOccurrence rule.now.form year result.0 }
    ensures second { result.1 ≡ rule.now.second }
{
    (day_in_year(rule.form, year as i16), rule.second)
}

/// The day of the year on which a form falls, in days from 1970-01-01.
fn day_in_year(form: Form, year: i16) -> i64
    requires valid { IsValidForm form }
    requires year_in { IsBetween (pos 1800) (pos 9999) year }
    ensures { IsOccurrence form year result }
{
    match form {
        Form::NthDay {
            month,
            nth,
            weekday,
        } => first_on(
            first_of_month(year, month) + first_of_weeks(year, month, nth),
            weekday,
        ),
        Form::MonthDays {
            month,
            first,
            weekday,
        } => first_on(first_of_month(year, month) + i64::from(first) - 1, weekday),
        Form::YearDays { first, weekday } => {
            first_on(new_year_day(year) + first_of_days(year, first), weekday)
        }
        Form::FixedDate { month, day } => first_of_month(year, month) + i64::from(day) - 1,
    }
}

/// The first day, from a day on, that falls on the weekday. The day must not be further from
/// 1970-01-01 than `EARLY_SUNDAY` days.
fn first_on(day: i64, weekday: u8) -> i64
    requires day { IsWithin 4_371_588 day }
    requires weekday { weekday ≤ 6 }
    ensures { result ≡ day +ℤ pos (row.days_ahead weekday day) }
{
    let since = (day + EARLY_SUNDAY) as u32;
    day + i64::from((u32::from(weekday) + 7 - since % 7) % 7)
}

/// The first day of a month, in days from 1970-01-01.
fn first_of_month(year: i16, month: u8) -> i64
    requires year_in { IsBetween (pos 1800) (pos 9999) year }
    requires month { IsMonth month }
    ensures value { result ≡ days_from_civil year month 1 }
    ensures bound { IsEpochDay result }
{
    let first = civil::date(year, month as i8, 1);
    i64::from(first.to_plain().to_unix_epoch_day())
}

/// How many days into the month the nth seven days begin, or the last seven for -1.
fn first_of_weeks(year: i16, month: u8, nth: i8) -> i64
    requires year_in { IsBetween (pos 1800) (pos 9999) year }
    requires month { IsMonth month }
    requires nth { IsOrdinal nth }
    ensures value { result ≡ pos (row.weeks_begin nth (days_in_month year month)) }
    ensures bound { IsBetween (pos 0) (pos 24) result }
{
    if nth < 0 {
        i64::from(civil::date(year, month as i8, 1).days_in_month()) - 7
    } else {
        7 * i64::from(nth) - 7
    }
}

/// How many days into the year the seven days begin.
fn first_of_days(year: i16, first: i16) -> i64
    requires year_in { IsBetween (pos 1800) (pos 9999) year }
    requires first { IsFirstDay first }
    ensures value { result ≡ pos (row.row_first (Form.YearDays first 0) year) }
    ensures bound { IsBetween (pos 0) (pos 366) result }
{
    if first > 0 {
        i64::from(first) - 1
    } else {
        i64::from(civil::date(year, 1, 1).days_in_year()) + i64::from(first)
    }
}
