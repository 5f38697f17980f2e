//! The yearly rule of a date of a footer.
ghost use Rattle.std.specs.Prelude.{◌≡◌, ◌<◌, ◌≤◌, ◌+◌, pos, neg_ℤ, true};
ghost use Rattle.jiff_core.specs.Calendar.{IsBetween};
ghost use Rattle.posix_footer.specs.Carried as carried;
ghost use Rattle.posix_footer.specs.Onset as onset;
ghost use Rattle.posix_footer.specs.Lawful.{IsLawfulDay, IsLawfulDate};
ghost use Rattle.recurrence.specs.RuleOfDate as rules;

use crate::steady_dates::{moved_by, moved_first};
use crate::{Form, Rule};
use jiff_core::civil::Date as PlainDate;
use posix_footer::{Date, DayForm};

/// 1 January 2001, which begins a year without 29 February. It is counted in days after 1 January
/// of the year -9999, the first date of `jiff_core`.
const FIRST_OF_2001: u32 = 4_382_910;

/// The last day before March in such a year, counted from 0.
const LAST_OF_FEBRUARY: u16 = 58;

/// The rule of a date.
pub(crate) fn rule_of(date: Date) -> Rule
    requires lawful { IsLawfulDate date }
    requires steady { carried.is_steady date ≡ true }
    ensures { result ≡ rules.rule_of date }
{
    let days = moved_by(date.time);
    Rule {
        form: form_of(date.day, days, place_of(date)),
        second: date.time.rem_euclid(86_400) as u32,
    }
}

/// The form of a day that is moved by some days, given the resulting day of a common year.
fn form_of(form: DayForm, days: i32, place: u16) -> Form
    requires form { IsLawfulDay form }
    requires days { IsBetween (neg_ℤ (pos 7)) (pos 6) days }
    requires place { place ≡ rules.row_place form days }
    requires bound { place + onset.more_places form < 365 }
    ensures { result ≡ rules.form_of form days }
{
    match form {
        DayForm::Week {
            month,
            week,
            weekday,
        } => {
            if days == 0 {
                Form::NthDay {
                    month,
                    nth: nth_of(week),
                    weekday,
                }
            } else {
                row_form(place, turned(weekday, days))
            }
        }
        _ => {
            let date = common_date(place);
            Form::FixedDate {
                month: date.month as u8,
                day: date.day as u8,
            }
        }
    }
}

/// The first day of a date in a common year, counted from 0, after its time has moved it.
fn place_of(date: Date) -> u16
    requires lawful { IsLawfulDate date }
    requires steady { carried.is_steady date ≡ true }
    ensures value { result ≡ rules.row_place date.day (carried.moved_by date.time) }
    ensures bound { result + onset.more_places date.day < 365 }
{
    moved_first(date, 2001) as u16
}

/// The weekday this number of days after a weekday.
fn turned(weekday: u8, days: i32) -> u8
    requires weekday { weekday ≤ 6 }
    requires days { IsBetween (neg_ℤ (pos 7)) (pos 6) days }
    ensures { result ≡ rules.turned weekday days }
{
    (i32::from(weekday) + days + 7) as u8 % 7
}

fn nth_of(week: u8) -> i8
    requires { week ≤ 5 }
    ensures { result ≡ rules.nth_of week }
{
    if week == 5 { -1 } else { week as i8 }
}

/// The form of a weekday among the seven days that begin at a day of a common year.
fn row_form(place: u16, weekday: u8) -> Form
    requires { place + 6 < 365 }
    ensures { result ≡ rules.row_form place weekday }
{
    let first = common_date(place);
    if first.month == common_date(place + 6).month {
        Form::MonthDays {
            month: first.month as u8,
            first: first.day as u8,
            weekday,
        }
    } else if place <= LAST_OF_FEBRUARY {
        Form::YearDays {
            first: place as i16 + 1,
            weekday,
        }
    } else {
        Form::YearDays {
            first: place as i16 - 365,
            weekday,
        }
    }
}

/// The date of a day of a common year, counted from 0.
fn common_date(place: u16) -> PlainDate
    requires { place < 365 }
    ensures month { result.month ≡ (rules.common_date place).month }
    ensures day { result.day ≡ (rules.common_date place).day }
{
    PlainDate::from_days_since_min(FIRST_OF_2001 + u32::from(place))
}
