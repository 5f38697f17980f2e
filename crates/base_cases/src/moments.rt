//! Moments, dates and their texts.
ghost use Rattle.std.specs.Prelude.{IfOk};
ghost use Rattle.td_civil.specs.Bounds.{IsWithinBounds};

use case_lines::{Answer, CaseFault, Row, debug_text};
use std::alloc::Global;
use td_civil::{
    BadMoment, HI, LO, Moment, date_of_day, day_of, is_date, local_stamp, moment_of, utc_text,
    year_of,
};

/// `moment TEXT`: the moment that it encodes, in seconds since 1970-01-01 UTC.
pub fn read(alloc: Global, row: &Row) -> Answer {
    match moment_of(row.word(0)?) {
        Ok(Moment { seconds }) => debug_text(alloc, &seconds),
        Err(BadMoment) => Ok(BadMoment.to_string(alloc)?.into_bytes()),
    }
}

/// `utc SECONDS`: the text of a moment.
pub fn utc(alloc: Global, row: &Row) -> Answer {
    case_lines::bytes(alloc, &utc_text(moment(row)?))
}

/// `local SECONDS OFFSET`: the local time of a moment.
pub fn local(alloc: Global, row: &Row) -> Answer {
    let (moment, offset) = (moment(row)?, row.signed_number(1)?);
    if offset < -86_399 || 86_399 < offset {
        return Err(CaseFault::Strange);
    }
    case_lines::bytes(alloc, &local_stamp(moment, offset as i32))
}

/// `year SECONDS`: the year of a moment.
pub fn year(alloc: Global, row: &Row) -> Answer {
    debug_text(alloc, &year_of(moment(row)?))
}

/// The moment of the first word, which must be within the supported range.
fn moment(row: &Row) -> Result<Moment, CaseFault>
    ensures { IfOk result (λ m. IsWithinBounds m.seconds) }
{
    let seconds = row.signed_number(0)?;
    if seconds < LO || HI < seconds {
        return Err(CaseFault::Strange);
    }
    Ok(Moment { seconds })
}

/// `before SECONDS SECONDS`: whether the first moment is before the second.
pub fn before(alloc: Global, row: &Row) -> Answer {
    let other = Moment {
        seconds: row.signed_number(1)?,
    };
    debug_text(alloc, &(moment(row)? < other))
}

/// `day YEAR MONTH DAY`: the number of a day.
pub fn day(alloc: Global, row: &Row) -> Answer {
    let year = i32::try_from(row.signed_number(0)?)
        .ok()
        .ok_or(CaseFault::Strange)?;
    debug_text(alloc, &day_of(year, byte(row, 1)?, byte(row, 2)?))
}

fn byte(row: &Row, at: usize) -> Result<u8, CaseFault> {
    u8::try_from(row.number(at)?).ok().ok_or(CaseFault::Strange)
}

/// `date NUMBER`: the year, the month and the day of a day's number.
pub fn date(alloc: Global, row: &Row) -> Answer {
    let number = row.signed_number(0)?;
    if number < -719_528 || 2_932_896 < number {
        return Err(CaseFault::Strange);
    }
    let date = date_of_day(number);
    let (year, month, day) = (date.year, date.month, date.day);
    Ok(format!(in alloc; "{year} {month} {day}")?.into_bytes())
}

/// `is-date TEXT`: whether the text is a date.
pub fn judge(alloc: Global, row: &Row) -> Answer {
    debug_text(alloc, &is_date(row.word(0)?))
}
