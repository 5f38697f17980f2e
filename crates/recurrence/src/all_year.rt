//! Whether daylight saving time holds all year.
ghost use Rattle.std.specs.Prelude.{◌≡◌, pos, ◌+ℤ◌, ◌-ℤ◌};
ghost use Rattle.std.specs.Ordering.{int_eq};
ghost use Rattle.posix_footer.specs.Carried as carried;
ghost use Rattle.posix_footer.specs.Lawful.{IsLawfulOffset, IsLawfulRule};

use posix_footer::{Date, DayForm, DstRule};

/// Whether the rule makes daylight saving time last from 1 January to 31 December.
#[tactic(auto, unfolding(posix_footer::specs::Carried::is_all_year))]
pub(crate) fn is_all_year(std: i32, rule: &DstRule) -> bool
    requires { IsLawfulRule std rule.now }
    ensures { result ≡ carried.is_all_year std rule.now }
{
    starts_year(rule.start) && ends_year(rule.end, end_of_year(std, rule.dst.offset))
}

#[tactic(auto, unfolding(posix_footer::specs::Carried::starts_year))]
fn starts_year(date: Date) -> bool
    ensures { result ≡ carried.starts_year date }
{
    is_year_start(date.day) && is_same(date.time, 0)
}

#[tactic(auto, unfolding(posix_footer::specs::Carried::ends_year))]
fn ends_year(date: Date, time: i32) -> bool
    ensures { result ≡ carried.ends_year date time }
{
    is_year_end(date.day) && is_same(date.time, time)
}

/// The time of 31 December, in seconds from midnight, at which the next year begins by the clocks
/// of standard time.
fn end_of_year(std: i32, dst: i32) -> i32
    requires std { IsLawfulOffset std }
    requires dst { IsLawfulOffset dst }
    ensures { result ≡ (pos 86400 +ℤ dst) -ℤ std }
{
    86_400 + dst - std
}

fn is_same(a: i32, b: i32) -> bool
    ensures { result ≡ int_eq a b }
{
    a == b
}

fn is_year_start(form: DayForm) -> bool
    ensures { result ≡ carried.is_year_start form }
{
    match form {
        DayForm::Julian(n) => n == 1,
        DayForm::YearDay(n) => n == 0,
        DayForm::Week { .. } => false,
    }
}

fn is_year_end(form: DayForm) -> bool
    ensures { result ≡ carried.is_year_end form }
{
    match form {
        DayForm::Julian(n) => n == 365,
        _ => false,
    }
}
