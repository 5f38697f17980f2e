//! The form of a rule, from its words.
ghost use Rattle.std.specs.Prelude.{◌≡◌, IfSome, Some, None};
ghost use Rattle.recurrence.specs.Valid.{IsValidForm};
ghost use Rattle.vtimezone_reader.specs.RuleWords as words;

use crate::rule_words::{Days, Recur, WeekDay, Words};
use recurrence::{Form, Rule, valid};

/// The rule that its words describe.
#[tactic(auto, unfolding(crate::specs::RuleWords::recur_of))]
pub(crate) fn recur_of(read: &Words) -> Option<Recur>
    ensures exact { result ≡ words.recur_of read.now }
    ensures valid { IfSome result (λ r. IsValidForm r.form) }
{
    if !read.yearly {
        return None;
    }
    let form = form_of(read.month, read.month_days, read.year_days, read.weekday)?;
    Some(Recur {
        form,
        until: read.until,
    })
}

/// The form, if it has a day in each year; else None.
fn valid_only(form: Form) -> Option<Form>
    ensures exact { result ≡ words.valid_only (Some form) }
    ensures valid { IfSome result IsValidForm }
{
    if valid(&Rule { form, second: 0 }) {
        Some(form)
    } else {
        None
    }
}

/// The form of these days, if it has a day in each year; else None.
#[tactic(auto, unfolding(crate::specs::RuleWords::form_of_words))]
fn form_of(
    month: Option<u8>,
    month_days: Option<Days>,
    year_days: Option<Days>,
    day: Option<WeekDay>,
) -> Option<Form>
    ensures exact { result
        ≡ words.valid_only (words.form_of_words month month_days year_days day) }
    ensures valid { IfSome result IsValidForm }
{
    match month {
        None => {
            if month_days.is_some() {
                return None;
            }
            year_days_form(year_days?, day?)
        }
        Some(month) => {
            if year_days.is_some() {
                return None;
            }
            of_month(month, month_days, day)
        }
    }
}

/// The form of days of a month.
#[tactic(auto, unfolding(crate::specs::RuleWords::form_of_words))]
fn of_month(month: u8, days: Option<Days>, day: Option<WeekDay>) -> Option<Form>
    ensures exact { result ≡ words.valid_only (words.form_of_words (Some month) days None day) }
    ensures valid { IfSome result IsValidForm }
{
    match days {
        None => nth_form(month, day?),
        Some(days) => match day {
            None => date_form(month, days),
            Some(day) => month_days_form(month, days, day),
        },
    }
}

fn nth_form(month: u8, day: WeekDay) -> Option<Form>
    ensures exact { result ≡ words.valid_only (words.nth_form month day.weekday day.nth) }
    ensures valid { IfSome result IsValidForm }
{
    valid_only(Form::NthDay {
        month,
        nth: day.nth?,
        weekday: day.weekday,
    })
}

fn month_days_form(month: u8, days: Days, day: WeekDay) -> Option<Form>
    ensures exact { result ≡ words.valid_only (words.seven_of_month month days day) }
    ensures valid { IfSome result IsValidForm }
{
    if days.first < 1 {
        return None;
    }
    if days.first > 31 {
        return None;
    }
    if day.nth.is_some() {
        return None;
    }
    if !days.seven {
        return None;
    }
    valid_only(Form::MonthDays {
        month,
        first: days.first as u8,
        weekday: day.weekday,
    })
}

fn year_days_form(days: Days, day: WeekDay) -> Option<Form>
    ensures exact { result ≡ words.valid_only (words.seven_of_year days day) }
    ensures valid { IfSome result IsValidForm }
{
    if !days.seven || day.nth.is_some() {
        return None;
    }
    valid_only(Form::YearDays {
        first: days.first,
        weekday: day.weekday,
    })
}

fn date_form(month: u8, days: Days) -> Option<Form>
    ensures exact { result ≡ words.valid_only (words.one_of_month month days) }
    ensures valid { IfSome result IsValidForm }
{
    if days.first < 1 {
        return None;
    }
    if days.first > 31 {
        return None;
    }
    if days.seven {
        return None;
    }
    valid_only(Form::FixedDate {
        month,
        day: days.first as u8,
    })
}
