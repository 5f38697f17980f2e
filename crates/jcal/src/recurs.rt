//! Yearly recurrence rules (RFC 7265, section 3.6.10).
ghost use Rattle.std.specs.Prelude.{◌≡◌, [], ◌∷◌, ◌++◌, OnOk, IfSome, codes};
ghost use Rattle.std.specs.Fmt.{signed_decimal};
ghost use Rattle.jiff_core.specs.Calendar.{IsWithin};
ghost use Rattle.json.specs.Token as token;
ghost use Rattle.td_civil.specs.Bounds.{IsWithinBounds};
ghost use Rattle.recurrence.specs.Valid.{IsValidForm};
ghost use Rattle.recurrence.specs.Weekdays as weekdays;
ghost use Rattle.jcal.specs.Tree.{integer, recur_data, seven_data};
ghost use Rattle.jcal.specs.TreeTokens.{form_tokens, last_tokens, tree_tokens};

use crate::properties::put_text;
use crate::values::{ValueText, weekday_name};
use itoa::Buffer;
use json::Writer;
use recurrence::Form;
use td_base::NoMemory;
use td_civil::{Moment, utc_text};

/// Writes a rule, up to a last moment if one is given. Members stand in rising order of their
/// names.
pub(crate) fn put_recur(out: &mut Writer, form: Form, until: Option<Moment>) -> Result<(), NoMemory>
    requires form { IsValidForm form }
    requires until { IfSome until (λ m. IsWithinBounds m.seconds) }
    ensures tokens { OnOk result
        (out.new.tokens ≡ out.old.tokens ++ tree_tokens (recur_data form until)) }
    ensures before { out.new.before ≡ out.old.before }
{
    out.begin_object()?;
    put_form(out, form)?;
    out.key("freq")?;
    out.string("YEARLY")?;
    put_last(out, until)?;
    out.end_object()?;
    Ok(())
}

/// Writes the members that name the days.
fn put_form(out: &mut Writer, form: Form) -> Result<(), NoMemory>
    requires { IsValidForm form }
    ensures tokens { OnOk result (out.new.tokens ≡ out.old.tokens ++ form_tokens form) }
    ensures before { out.new.before ≡ out.old.before }
{
    match form {
        Form::NthDay {
            month,
            nth,
            weekday,
        } => {
            put_nth_weekday(out, nth, weekday)?;
            put_number(out, "bymonth", i16::from(month))?;
        }
        Form::MonthDays {
            month,
            first,
            weekday,
        } => {
            put_weekday(out, weekday)?;
            put_number(out, "bymonth", i16::from(month))?;
            put_seven(out, "bymonthday", i16::from(first))?;
        }
        Form::YearDays { first, weekday } => {
            put_weekday(out, weekday)?;
            put_seven(out, "byyearday", first)?;
        }
        Form::FixedDate { month, day } => {
            put_number(out, "bymonth", i16::from(month))?;
            put_number(out, "bymonthday", i16::from(day))?;
        }
    }
    Ok(())
}

#[tactic(auto, using(crate::proofs::SafeTexts::weekday_is_safe))]
fn put_weekday(out: &mut Writer, weekday: u8) -> Result<(), NoMemory>
    ensures tokens { OnOk result (out.new.tokens ≡ out.old.tokens
        ++ token.key (codes "byday") ∷ token.string (weekdays.weekday_name weekday) ∷ []) }
    ensures before { out.new.before ≡ out.old.before }
{
    out.key("byday")?;
    put_text(out, &weekday_name(weekday))
}

#[tactic(auto, using(crate::proofs::SafeTexts::nth_weekday_is_safe))]
fn put_nth_weekday(out: &mut Writer, nth: i8, weekday: u8) -> Result<(), NoMemory>
    ensures tokens { OnOk result (out.new.tokens ≡ out.old.tokens
        ++ token.key (codes "byday")
        ∷ token.string (signed_decimal nth ++ weekdays.weekday_name weekday) ∷ []) }
    ensures before { out.new.before ≡ out.old.before }
{
    out.key("byday")?;
    put_text(out, nth_weekday(nth, weekday).as_slice())
}

fn nth_weekday(nth: i8, weekday: u8) -> ValueText
    ensures { result ≡ signed_decimal nth ++ weekdays.weekday_name weekday }
{
    let mut text = ValueText::new();
    let mut buffer = Buffer::new();
    text.append(buffer.format(nth).as_bytes());
    text.append(&weekday_name(weekday));
    text
}

/// Writes a member whose value is a number.
fn put_number(out: &mut Writer, name: &str, number: i16) -> Result<(), NoMemory>
    ensures tokens { OnOk result (out.new.tokens
        ≡ out.old.tokens ++ token.key name.now ∷ tree_tokens (integer number)) }
    ensures before { out.new.before ≡ out.old.before }
{
    out.key(name)?;
    put_integer(out, number)
}

#[tactic(auto, using(crate::proofs::Integers::integer_text))]
fn put_integer(out: &mut Writer, number: i16) -> Result<(), NoMemory>
    ensures tokens { OnOk result (out.new.tokens ≡ out.old.tokens ++ tree_tokens (integer number)) }
    ensures before { out.new.before ≡ out.old.before }
{
    out.i64(i64::from(number))?;
    Ok(())
}

/// Writes a member whose value is seven consecutive numbers.
fn put_seven(out: &mut Writer, name: &str, first: i16) -> Result<(), NoMemory>
    requires { IsWithin 400 first }
    ensures tokens { OnOk result (out.new.tokens
        ≡ out.old.tokens ++ token.key name.now ∷ tree_tokens (seven_data first)) }
    ensures before { out.new.before ≡ out.old.before }
{
    out.key(name)?;
    out.begin_array()?;
    put_integer(out, first)?;
    put_integer(out, first + 1)?;
    put_integer(out, first + 2)?;
    put_integer(out, first + 3)?;
    put_integer(out, first + 4)?;
    put_integer(out, first + 5)?;
    put_integer(out, first + 6)?;
    out.end_array()?;
    Ok(())
}

/// Writes the member with the last moment, if one is given.
#[tactic(auto, using(crate::proofs::SafeTexts::moment_is_safe))]
fn put_last(out: &mut Writer, until: Option<Moment>) -> Result<(), NoMemory>
    requires { IfSome until (λ m. IsWithinBounds m.seconds) }
    ensures tokens { OnOk result (out.new.tokens ≡ out.old.tokens ++ last_tokens until) }
    ensures before { out.new.before ≡ out.old.before }
{
    if let Some(last) = until {
        out.key("until")?;
        put_text(out, &utc_text(last))?;
    }
    Ok(())
}
