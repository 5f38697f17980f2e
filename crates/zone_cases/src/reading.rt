//! Parsing calendars, and their observances.
ghost use Rattle.std.specs.Prelude.{◌≡◌, IfOk};
ghost use Rattle.zone_meaning.specs.Observed.{IsRange};

use crate::showing::{calendar_text, observances_text};
use case_lines::{Answer, CaseFault, Row};
use std::alloc::Global;
use td_civil::{HI, LO, Moment};
use vtimezone_reader::CalendarFault;

/// `read TEXT`: the calendar of the text, or its first fault.
pub fn read(alloc: Global, row: &Row) -> Answer {
    match vtimezone_reader::read(alloc, row.word(0)?) {
        Ok(calendar) => calendar_text(alloc, &calendar),
        Err(fault) => refusal(alloc, fault),
    }
}

/// `expand TEXT FROM END`: the observances of the calendar of the text, or its first fault.
pub fn expand(alloc: Global, row: &Row) -> Answer {
    let (from, end) = range(row)?;
    match vtimezone_reader::read(alloc, row.word(0)?) {
        Ok(calendar) => {
            let list = vtimezone_reader::expand(alloc, &calendar, from, end)?;
            observances_text(alloc, list.as_slice())
        }
        Err(fault) => refusal(alloc, fault),
    }
}

fn refusal(alloc: Global, fault: CalendarFault) -> Answer {
    match fault {
        CalendarFault::NoMemory => Err(CaseFault::NoMemory),
        _ => Ok(format!(in alloc; "{fault}")?.into_bytes()),
    }
}

/// The range of a row.
fn range(row: &Row) -> Result<(Moment, Moment), CaseFault>
    ensures { IfOk result (λ range. IsRange range.0.seconds range.1.seconds) }
{
    let from = row.signed_number(1)?;
    let end = row.signed_number(2)?;
    if from < LO || end <= from || end > HI {
        return Err(CaseFault::Strange);
    }
    Ok((Moment { seconds: from }, Moment { seconds: end }))
}
