//! Whether a rule falls on one day of each year.
ghost use Rattle.std.specs.Prelude.{◌≡◌, ◌↔◌, ◌≤◌, ◌+◌, IsTrue, pos};
ghost use Rattle.jiff_core.specs.Calendar.{days_in_month};
ghost use Rattle.recurrence.specs.Valid.{IsMonth, IsOrdinal, IsFirstDay, IsValidForm, IsValid};

use crate::{Form, Rule};

/// Whether the rule falls on one day of each year, and on a second that each day has. The month is
/// 1 to 12, the weekday 0 to 6, and the second below 86400. Each year has the days that the rule
/// names. It allocates nothing.
pub fn valid(rule: &Rule) -> bool
    ensures { IsTrue result ↔ IsValid rule.now }
{
    rule.second < 86_400 && is_valid_form(rule.form)
}

fn is_valid_form(form: Form) -> bool
    ensures { IsTrue result ↔ IsValidForm form }
{
    match form {
        Form::NthDay {
            month,
            nth,
            weekday,
        } => is_month(month) && is_ordinal(nth) && weekday <= 6,
        Form::MonthDays {
            month,
            first,
            weekday,
        } => is_month(month) && is_day(first, month, 6) && weekday <= 6,
        Form::YearDays { first, weekday } => is_first_day(first) && weekday <= 6,
        Form::FixedDate { month, day } => is_month(month) && is_day(day, month, 0),
    }
}

fn is_month(month: u8) -> bool
    ensures { IsTrue result ↔ IsMonth month }
{
    month >= 1 && month <= 12
}

fn is_ordinal(nth: i8) -> bool
    ensures { IsTrue result ↔ IsOrdinal nth }
{
    nth == -1 || nth >= 1 && nth <= 4
}

fn is_first_day(first: i16) -> bool
    ensures { IsTrue result ↔ IsFirstDay first }
{
    first >= 1 && first <= 359 || first >= -365 && first <= -7
}

/// Whether the month has, in each year, the day and this number of days after it.
fn is_day(day: u8, month: u8, more: u8) -> bool
    ensures { IsTrue result ↔ ((1 ≤ day) × (day + more ≤ days_in_month (pos 2001) month)) }
{
    day >= 1 && u16::from(day) + u16::from(more) <= month_length(month)
}

/// How many days the month has in each year.
fn month_length(month: u8) -> u16
    ensures { result ≡ days_in_month (pos 2001) month }
{
    match month {
        2 => 28,
        4 | 6 | 9 | 11 => 30,
        _ => 31,
    }
}
