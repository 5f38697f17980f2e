//! Yearly rules.
ghost use Rattle.std.specs.Prelude.{◌≡◌, pos, IfOk};
ghost use Rattle.jiff_core.specs.Calendar.{IsBetween};

use crate::zones::state_text;
use case_lines::{Answer, CaseFault, Row, debug_text};
use recurrence::{Carried, Form, Rule, occurrence};
use std::alloc::Global;
use td_base::Bytes;

/// `carry TZ`: the yearly rules for the TZ string, the state that always holds, or `beyond`.
pub fn carry(alloc: Global, row: &Row) -> Answer {
    let Ok(footer) = posix_footer::read(row.word(0)?) else {
        return Err(CaseFault::Strange);
    };
    match recurrence::carry(&footer) {
        Ok(Carried::Constant(state)) => state_text(alloc, &state),
        Ok(Carried::Pair { start, end, .. }) => {
            Ok(format!(in alloc; "{start:?} {end:?}")?.into_bytes())
        }
        Err(_) => Ok(Bytes::from_slice(alloc, b"beyond")?.into_vec()),
    }
}

/// `valid SECOND FORM NUMBER ..`: whether the rule is valid.
pub fn valid(alloc: Global, row: &Row) -> Answer {
    let rule = rule_at(row, 0)?;
    debug_text(alloc, &recurrence::valid(&rule))
}

/// `day YEAR SECOND FORM NUMBER ..`: the day number and the second of the rule in the year.
pub fn day(alloc: Global, row: &Row) -> Answer {
    let year = year_in(row)?;
    let rule = rule_at(row, 1)?;
    if !recurrence::valid(&rule) {
        return Err(CaseFault::Strange);
    }
    debug_text(alloc, &occurrence(&rule, year))
}

fn year_in(row: &Row) -> Result<i32, CaseFault>
    ensures { IfOk result (λ year. IsBetween (pos 1800) (pos 9999) year) }
{
    match row.number(0)? {
        year @ 1_800..=9_999 => Ok(year as i32),
        _ => Err(CaseFault::Strange),
    }
}

/// The rule in the words from a position on: its second, the kind of its form and the numbers of
/// the form.
fn rule_at(row: &Row, at: usize) -> Result<Rule, CaseFault> {
    let second = row.number(at)?;
    let form = form_at(row, at.saturating_add(1))?;
    if second > 1_000_000 {
        return Err(CaseFault::Strange);
    }
    Ok(Rule {
        form,
        second: second as u32,
    })
}

fn form_at(row: &Row, at: usize) -> Result<Form, CaseFault> {
    let numbers = at.saturating_add(1);
    match row.word(at)? {
        b"NthDay" => nth_day(row, numbers),
        b"MonthDays" => month_days(row, numbers),
        b"YearDays" => year_days(row, numbers),
        b"FixedDate" => fixed_date(row, numbers),
        _ => Err(CaseFault::Strange),
    }
}

fn nth_day(row: &Row, at: usize) -> Result<Form, CaseFault> {
    Ok(Form::NthDay {
        month: byte(row, at)?,
        nth: ordinal(row, at.saturating_add(1))?,
        weekday: byte(row, at.saturating_add(2))?,
    })
}

fn month_days(row: &Row, at: usize) -> Result<Form, CaseFault> {
    Ok(Form::MonthDays {
        month: byte(row, at)?,
        first: byte(row, at.saturating_add(1))?,
        weekday: byte(row, at.saturating_add(2))?,
    })
}

fn year_days(row: &Row, at: usize) -> Result<Form, CaseFault> {
    Ok(Form::YearDays {
        first: small(row, at)?,
        weekday: byte(row, at.saturating_add(1))?,
    })
}

fn fixed_date(row: &Row, at: usize) -> Result<Form, CaseFault> {
    Ok(Form::FixedDate {
        month: byte(row, at)?,
        day: byte(row, at.saturating_add(1))?,
    })
}

/// A number that fits a byte.
fn byte(row: &Row, at: usize) -> Result<u8, CaseFault> {
    match row.number(at)? {
        number @ 0..=255 => Ok(number as u8),
        _ => Err(CaseFault::Strange),
    }
}

/// A number of one digit, which may be below zero.
fn ordinal(row: &Row, at: usize) -> Result<i8, CaseFault> {
    match row.signed_number(at)? {
        number @ -9..=9 => Ok(number as i8),
        _ => Err(CaseFault::Strange),
    }
}

/// A number of three digits at most.
fn small(row: &Row, at: usize) -> Result<i16, CaseFault> {
    match row.signed_number(at)? {
        number @ -999..=999 => Ok(number as i16),
        _ => Err(CaseFault::Strange),
    }
}
