//! The values of content lines (RFC 5545, section 3.3), in buffers of fixed size.
ghost use Rattle.std.specs.Prelude.{◌≡◌, ◌+◌, ◌<◌, ◌≤◌, ◌++◌, length, IfSome};
ghost use Rattle.std.specs.Fmt.{signed_decimal};
ghost use Rattle.jiff_core.specs.Calendar.{IsWithin};
ghost use Rattle.td_civil.specs.Bounds.{IsWithinBounds};
ghost use Rattle.td_civil.specs.Stamp.{two_digits};
ghost use Rattle.recurrence.specs.Valid.{IsValidForm};
ghost use Rattle.recurrence.specs.Weekdays as weekdays;
ghost use Rattle.vtimezone.specs.Values as values;

use itoa::Buffer;
use recurrence::{Form, Rule};
use td_base::ShortText;
use td_civil::{Moment, local_stamp};

/// A buffer for the value of a rule, in bytes.
pub(crate) type LineValue = ShortText<128>;

fn two_digits(number: u32) -> [u8; 2]
    requires { number < 100 }
    ensures { result ≡ two_digits number }
{
    [b'0' + (number / 10 % 10) as u8, b'0' + (number % 10) as u8]
}

/// The text of an offset, given in seconds east of UTC (RFC 5545, section 3.3.14).
#[tactic(auto, unfolding(crate::specs::Values::offset_text))]
pub(crate) fn offset_value(offset: i32) -> LineValue
    requires { IsWithin 86_399 offset }
    ensures { result ≡ values.offset_text offset }
{
    let size = offset.unsigned_abs();
    let mut text = LineValue::new();
    text.append(&[if offset < 0 { b'-' } else { b'+' }]);
    text.append(&two_digits(size / 3_600));
    text.append(&two_digits(size % 3_600 / 60));
    append_seconds(&mut text, size % 60);
    text
}

fn append_seconds(text: &mut LineValue, seconds: u32)
    requires seconds { seconds < 60 }
    requires room { length text.old + 2 ≤ 128 }
    ensures { text.new ≡ text.old ++ values.seconds_text seconds }
{
    if seconds != 0 {
        text.append(&two_digits(seconds));
    }
}

/// The text of a moment in UTC (RFC 5545, section 3.3.5).
#[tactic(auto, unfolding(crate::specs::Values::utc_basic))]
pub(crate) fn utc_value(moment: Moment) -> LineValue
    requires { IsWithinBounds moment.seconds }
    ensures text { result ≡ values.utc_basic moment.seconds }
    ensures length { length result ≡ 16 }
{
    let mut text = LineValue::new();
    text.append(&local_stamp(moment, 0));
    text.append(b"Z");
    text
}

fn append_number(text: &mut LineValue, number: i16)
    requires { length text.old + 6 ≤ 128 }
    ensures text { text.new ≡ text.old ++ signed_decimal number }
    ensures length { length text.new ≤ length text.old + 6 }
{
    let mut buffer = Buffer::new();
    text.append(buffer.format(number).as_bytes());
}

fn append_named(text: &mut LineValue, name: &[u8], number: i16)
    requires { length text.old + length name.now + 6 ≤ 128 }
    ensures text { text.new ≡ text.old ++ (name.now ++ signed_decimal number) }
    ensures length { length text.new ≤ length text.old + length name.now + 6 }
{
    text.append(name);
    append_number(text, number);
}

#[tactic(auto, unfolding(crate::specs::Values::next_number))]
fn append_next(text: &mut LineValue, first: i16, more: u8)
    requires first { IsWithin 400 first }
    requires more { more ≤ 6 }
    requires room { length text.old + 7 ≤ 128 }
    ensures text { text.new ≡ text.old ++ values.next_number first more }
    ensures length { length text.new ≤ length text.old + 7 }
{
    text.append(b",");
    append_number(text, first + i16::from(more));
}

#[tactic(auto, unfolding(crate::specs::Values::seven_numbers))]
fn append_seven(text: &mut LineValue, first: i16)
    requires first { IsWithin 400 first }
    requires room { length text.old + 48 ≤ 128 }
    ensures text { text.new ≡ text.old ++ values.seven_numbers first }
    ensures length { length text.new ≤ length text.old + 48 }
{
    append_number(text, first);
    append_next(text, first, 1);
    append_next(text, first, 2);
    append_next(text, first, 3);
    append_next(text, first, 4);
    append_next(text, first, 5);
    append_next(text, first, 6);
}

#[tactic(auto, unfolding(recurrence::specs::Weekdays::weekday_name))]
fn weekday_name(weekday: u8) -> [u8; 2]
    ensures { result ≡ weekdays.weekday_name weekday }
{
    if weekday == 0 {
        *b"SU"
    } else if weekday == 1 {
        *b"MO"
    } else if weekday == 2 {
        *b"TU"
    } else if weekday == 3 {
        *b"WE"
    } else if weekday == 4 {
        *b"TH"
    } else if weekday == 5 {
        *b"FR"
    } else {
        *b"SA"
    }
}

#[tactic(auto, unfolding(crate::specs::Values::by_month))]
fn append_month(text: &mut LineValue, month: u8)
    requires { length text.old + 15 ≤ 128 }
    ensures text { text.new ≡ text.old ++ values.by_month month }
    ensures length { length text.new ≤ length text.old + 15 }
{
    text.append(b";BYMONTH=");
    append_number(text, i16::from(month));
}

#[tactic(auto, unfolding(crate::specs::Values::by_weekday))]
fn append_weekday(text: &mut LineValue, weekday: u8)
    requires { length text.old + 9 ≤ 128 }
    ensures text { text.new ≡ text.old ++ values.by_weekday weekday }
    ensures length { length text.new ≤ length text.old + 9 }
{
    text.append(b";BYDAY=");
    text.append(&weekday_name(weekday));
}

#[tactic(auto, unfolding(crate::specs::Values::by_nth_weekday))]
fn append_nth_weekday(text: &mut LineValue, nth: i8, weekday: u8)
    requires { length text.old + 15 ≤ 128 }
    ensures text { text.new ≡ text.old ++ values.by_nth_weekday nth weekday }
    ensures length { length text.new ≤ length text.old + 15 }
{
    text.append(b";BYDAY=");
    append_number(text, i16::from(nth));
    text.append(&weekday_name(weekday));
}

#[tactic(auto, unfolding(crate::specs::Values::by_month_day))]
fn append_month_day(text: &mut LineValue, day: u8)
    requires { length text.old + 18 ≤ 128 }
    ensures text { text.new ≡ text.old ++ values.by_month_day day }
    ensures length { length text.new ≤ length text.old + 18 }
{
    append_named(text, b";BYMONTHDAY=", i16::from(day));
}

#[tactic(auto, unfolding(crate::specs::Values::by_month_days))]
fn append_month_days(text: &mut LineValue, first: u8)
    requires { length text.old + 60 ≤ 128 }
    ensures text { text.new ≡ text.old ++ values.by_month_days first }
    ensures length { length text.new ≤ length text.old + 60 }
{
    text.append(b";BYMONTHDAY=");
    append_seven(text, i16::from(first));
}

#[tactic(auto, unfolding(crate::specs::Values::by_year_days))]
fn append_year_days(text: &mut LineValue, first: i16)
    requires first { IsWithin 400 first }
    requires room { length text.old + 59 ≤ 128 }
    ensures text { text.new ≡ text.old ++ values.by_year_days first }
    ensures length { length text.new ≤ length text.old + 59 }
{
    text.append(b";BYYEARDAY=");
    append_seven(text, first);
}

/// The days of a rule.
fn append_form(text: &mut LineValue, form: Form)
    requires form { IsValidForm form }
    requires room { length text.old + 84 ≤ 128 }
    ensures text { text.new ≡ text.old ++ values.form_text form }
    ensures length { length text.new ≤ length text.old + 84 }
{
    match form {
        Form::NthDay {
            month,
            nth,
            weekday,
        } => {
            append_month(text, month);
            append_nth_weekday(text, nth, weekday);
        }
        Form::MonthDays {
            month,
            first,
            weekday,
        } => {
            append_month(text, month);
            append_month_days(text, first);
            append_weekday(text, weekday);
        }
        Form::YearDays { first, weekday } => {
            append_year_days(text, first);
            append_weekday(text, weekday);
        }
        Form::FixedDate { month, day } => {
            append_month(text, month);
            append_month_day(text, day);
        }
    }
}

#[tactic(auto, unfolding(crate::specs::Values::until_text))]
fn append_until(text: &mut LineValue, until: Option<Moment>)
    requires until { IfSome until (λ m. IsWithinBounds m.seconds) }
    requires room { length text.old + 23 ≤ 128 }
    ensures { text.new ≡ text.old ++ values.until_text until }
{
    if let Some(last) = until {
        text.append(b";UNTIL=");
        text.append(utc_value(last).as_slice());
    }
}

/// A yearly recurrence rule, up to a last moment if one is given (RFC 5545, section 3.3.10).
#[tactic(auto, unfolding(crate::specs::Values::rule_text))]
pub(crate) fn rule_value(rule: &Rule, until: Option<Moment>) -> LineValue
    requires form { IsValidForm rule.now.form }
    requires until { IfSome until (λ m. IsWithinBounds m.seconds) }
    ensures { result ≡ values.rule_text rule.now until }
{
    let mut text = LineValue::new();
    text.append(b"FREQ=YEARLY");
    append_form(&mut text, rule.form);
    append_until(&mut text, until);
    text
}
