//! Whether a date of a footer has the same days in every year.
ghost use Rattle.std.specs.Prelude.{◌≡◌, ◌≤◌, ◌+◌, ◌-◌, ◌*◌, min, pos, neg_ℤ};
ghost use Rattle.jiff_core.specs.Calendar.{IsBetween, IsWithin, days_of_months, days_in_month};
ghost use Rattle.posix_footer.specs.Carried as carried;
ghost use Rattle.posix_footer.specs.Onset as onset;
ghost use Rattle.posix_footer.specs.Lawful.{IsLawfulDay, IsLawfulDate};

use jiff::civil;
use posix_footer::{Date, DayForm};

/// Whether a date, and its day after its time has moved it, are the same in every year.
#[tactic(auto, unfolding(posix_footer::specs::Carried::is_steady))]
pub(crate) fn is_steady(date: Date) -> bool
    requires { IsLawfulDate date }
    ensures { result ≡ carried.is_steady date }
{
    !is_by_number(date.day) && (is_early(date) || is_late(date))
}

fn is_by_number(form: DayForm) -> bool
    ensures { result ≡ carried.is_by_number form }
{
    match form {
        DayForm::YearDay(_) => true,
        _ => false,
    }
}

#[tactic(auto, unfolding(posix_footer::specs::Carried::is_early))]
fn is_early(date: Date) -> bool
    requires { IsLawfulDate date }
    ensures { result ≡ carried.is_early date }
{
    let further = more_places(date.day);
    let common = first_place(date.day, 2001);
    let leap = first_place(date.day, 2004);
    let moved = moved_first(date, 2001);
    keeps_early(i32::from(common), i32::from(leap), further)
        && keeps_early(moved, moved_first(date, 2004), further)
        && 2 <= moved
}

#[tactic(auto, unfolding(posix_footer::specs::Carried::is_late_date))]
fn is_late(date: Date) -> bool
    requires { IsLawfulDate date }
    ensures { result ≡ carried.is_late_date date }
{
    let further = more_places(date.day);
    let common = first_place(date.day, 2001);
    let leap = first_place(date.day, 2004);
    let moved = moved_first(date, 2001);
    let last = moved_last(date, 2001);
    keeps_late(i32::from(common), i32::from(leap), further)
        && keeps_late(moved, moved_first(date, 2004), further)
        && last <= 362
}

/// Whether a row of days has the same dates in every year, given its first day in a common and in a
/// leap year.
#[tactic(auto, unfolding(posix_footer::specs::Carried::keeps_early))]
fn keeps_early(common: i32, leap: i32, further: u16) -> bool
    requires common { IsBetween (neg_ℤ (pos 7)) (pos 372) common }
    requires further { further ≤ 6 }
    ensures { result ≡ carried.keeps_early common leap further }
{
    leap == common && common >= 0 && common + i32::from(further) <= 58
}

#[tactic(auto, unfolding(posix_footer::specs::Carried::keeps_late))]
fn keeps_late(common: i32, leap: i32, further: u16) -> bool
    requires common { IsBetween (neg_ℤ (pos 7)) (pos 372) common }
    requires further { further ≤ 6 }
    ensures { result ≡ carried.keeps_late common leap further }
{
    leap == common + 1 && common >= 59 && common + i32::from(further) <= 364
}

/// The first day of a date in a year, counted from 0, after its time has moved it.
pub(crate) fn moved_first(date: Date, year: u16) -> i32
    requires date { IsLawfulDate date }
    requires year { (1800 ≤ year) × (year ≤ 9999) }
    ensures value { result ≡ carried.moved_first date (pos year) }
    ensures bound { IsBetween (neg_ℤ (pos 7)) (pos 371) result }
{
    i32::from(first_place(date.day, year)) + moved_by(date.time)
}

pub(crate) fn moved_last(date: Date, year: u16) -> i32
    requires date { IsLawfulDate date }
    requires year { (1800 ≤ year) × (year ≤ 9999) }
    ensures value { result ≡ carried.moved_last date (pos year) }
    ensures bound { IsBetween (neg_ℤ (pos 7)) (pos 377) result }
{
    moved_first(date, year) + i32::from(more_places(date.day))
}

/// The number of days by which a time moves its date.
pub(crate) fn moved_by(time: i32) -> i32
    requires { IsWithin 604799 time }
    ensures value { result ≡ carried.moved_by time }
    ensures bound { IsBetween (neg_ℤ (pos 7)) (pos 6) result }
{
    time.div_euclid(86_400)
}

/// The first day that a form can name in a year, where 1 January is 0.
fn first_place(form: DayForm, year: u16) -> u16
    requires form { IsLawfulDay form }
    requires year { (1800 ≤ year) × (year ≤ 9999) }
    ensures value { result ≡ onset.first_place form (pos year) }
    ensures bound { result ≤ 365 }
{
    match form {
        DayForm::Julian(n) => {
            if civil::date(year as i16, 1, 1).in_leap_year() && n >= 60 {
                n
            } else {
                n - 1
            }
        }
        DayForm::YearDay(n) => n,
        DayForm::Week { month, week, .. } => weeks_end(year, month, week) - 7,
    }
}

/// The day after the given number of weeks of a month, or after the month.
fn weeks_end(year: u16, month: u8, week: u8) -> u16
    requires day { IsLawfulDay (DayForm.Week month week 0) }
    requires year { (1800 ≤ year) × (year ≤ 9999) }
    ensures value { result
        ≡ days_of_months (pos year) (month - 1) + min (7 * week) (days_in_month (pos year) month) }
    ensures bound { (7 ≤ result) × (result ≤ 366) }
{
    let first = civil::date(year as i16, month as i8, 1);
    let length = first.days_in_month() as u16;
    let begin = first.day_of_year() as u16 - 1;
    begin + length.min(7 * week as u16)
}

/// How many days follow the first one that a form can name.
fn more_places(form: DayForm) -> u16
    ensures value { result ≡ onset.more_places form }
    ensures bound { result ≤ 6 }
{
    match form {
        DayForm::Week { .. } => 6,
        _ => 0,
    }
}
