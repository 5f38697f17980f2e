//! The moments at which daylight saving time begins and ends in a year.
ghost use Rattle.std.specs.Prelude.{◌≡◌, ◌≤◌, ◌<◌, pos, negsuc, neg_ℤ};
ghost use Rattle.jiff_core.specs.Calendar.{IsBetween, IsEpochDay};
ghost use Rattle.jiff_core.specs.Date.{IsYmd};
ghost use Rattle.jiff_core.specs.Weekday.{sunday_zero};
ghost use Rattle.posix_footer.specs.Lawful.{IsLawfulDay, IsLawfulDate, IsLawfulOffset};
ghost use Rattle.posix_footer.specs.Lawful.{IsLawfulRule};
ghost use Rattle.posix_footer.specs.Onset as spec;

use crate::{Date, DayForm, DstRule, Edge};
use jiff::civil::{self, Weekday};
use td_civil::{Moment, new_year_day};

/// The moment at which daylight saving time begins or ends in a year from 1798 to 9999 (POSIX,
/// section 8.3). It begins when clocks of standard time show the start's day and time. It ends when
/// clocks of daylight saving time show the end's day and time. `std` is the offset of standard
/// time, in seconds east of UTC. A day and time at the edge of the year may fall in the year before
/// or after it in UTC.
pub fn onset(rule: &DstRule, std: i32, year: i32, edge: Edge) -> Moment
    requires lawful { IsLawfulRule std rule.now }
    requires year_in { IsBetween (pos 1798) (pos 9999) year }
    ensures { result.seconds ≡ spec.onset_of rule.now std year edge }
{
    match edge {
        Edge::Start => moment_on(rule.start, std, year),
        Edge::End => moment_on(rule.end, rule.dst.offset, year),
    }
}

/// The moment of a date's day and time in a year, on clocks `offset` seconds east of UTC.
fn moment_on(date: Date, offset: i32, year: i32) -> Moment
    requires date { IsLawfulDate date }
    requires offset { IsLawfulOffset offset }
    requires year_in { IsBetween (pos 1798) (pos 9999) year }
    ensures { result.seconds ≡ spec.moment_on date offset year }
{
    let day = day_number(date.day, year as i16);
    Moment {
        seconds: day * 86_400 + i64::from(date.time) - i64::from(offset),
    }
}

/// The day number, from 1970-01-01.
fn day_number(form: DayForm, year: i16) -> i64
    requires form { IsLawfulDay form }
    requires year_in { IsBetween (pos 1798) (pos 9999) year }
    ensures value { result ≡ spec.day_number form year }
    ensures bound { IsBetween (neg_ℤ (pos 4_371_587)) (pos 2_933_261) result }
{
    match form {
        DayForm::Julian(n) => new_year_day(year) + i64::from(days_before(year, n)),
        DayForm::YearDay(n) => new_year_day(year) + i64::from(n),
        DayForm::Week {
            month,
            week,
            weekday,
        } => week_day(year, month, week, weekday),
    }
}

/// The number of days from 1 January to the nth day, where 29 February is not counted.
fn days_before(year: i16, n: u16) -> u16
    requires year_in { IsBetween (pos 1798) (pos 9999) year }
    requires n_in { IsLawfulDay (DayForm.Julian n) }
    ensures value { result ≡ spec.days_before year n }
    ensures bound { result ≤ 365 }
{
    let has_leap_day = civil::date(year, 1, 1).in_leap_year();
    if has_leap_day && n >= 60 { n } else { n - 1 }
}

/// The day number, from 1970-01-01, of the wth such weekday of a month, or of the last for 5.
fn week_day(year: i16, month: u8, week: u8, weekday: u8) -> i64
    requires day_in { IsLawfulDay (DayForm.Week month week weekday) }
    requires year_in { IsBetween (pos 1798) (pos 9999) year }
    ensures value { result ≡ spec.day_number (DayForm.Week month week weekday) year }
    ensures bound { IsEpochDay result }
{
    let day = date_of_week(year, month, week, weekday);
    i64::from(day.to_plain().to_unix_epoch_day())
}

/// The date of the wth such weekday of a month, or of the last for 5.
fn date_of_week(year: i16, month: u8, week: u8, weekday: u8) -> civil::Date
    requires day_in { IsLawfulDay (DayForm.Week month week weekday) }
    requires year_in { IsBetween (pos 1798) (pos 9999) year }
    ensures { IsYmd year (pos month) (pos (spec.month_day year month week weekday)) result }
{
    let first = civil::date(year, month as i8, 1);
    match first.nth_weekday_of_month(place_in_month(week), weekday_of(weekday)) {
        Ok(day) => day,
        Err(_) => first,
    }
}

/// The index of a week's day in the month for `jiff`: -1 for the last.
fn place_in_month(week: u8) -> i8
    requires { week ≤ 5 }
    ensures before { week < 5 → result ≡ pos week }
    ensures last { week ≡ 5 → result ≡ negsuc 0 }
{
    if week == 5 { -1 } else { week as i8 }
}

/// The weekday of a number, with Sunday as 0.
fn weekday_of(number: u8) -> Weekday
    requires { number ≤ 6 }
    ensures { sunday_zero result ≡ number }
{
    Weekday::from_index((number + 6) % 7)
}
