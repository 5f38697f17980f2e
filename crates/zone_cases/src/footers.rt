//! TZ strings, and the states that they give.
ghost use Rattle.std.specs.Prelude.{IfOk};
ghost use Rattle.posix_footer.specs.Lawful.{IsLawful};
ghost use Rattle.td_civil.specs.Bounds.{HasMeaning};

use case_lines::{Answer, AnswerBuilder, CaseFault, Row, debug_text, display_text};
use posix_footer::{Date, DayForm, Edge, Footer, at, next_onset, onset, read};
use std::alloc::Global;
use td_civil::{HI, LO, Local, Moment};

/// `rule TEXT`: the states and dates that a TZ string encodes, or its fault.
pub fn rule(alloc: Global, row: &Row) -> Answer {
    match read(row.word(0)?) {
        Ok(footer) => as_line(alloc, &footer),
        Err(fault) => display_text(alloc, &fault),
    }
}

fn as_line(alloc: Global, footer: &Footer) -> Answer {
    let mut builder = AnswerBuilder::new(alloc);
    add_local(&mut builder, &footer.std);
    if let Some(rule) = &footer.dst {
        builder.add_bytes(b", ");
        add_local(&mut builder, &rule.dst);
        add_date(&mut builder, rule.start);
        add_date(&mut builder, rule.end);
    }
    builder.finish()
}

/// A state: its offset in seconds east of UTC, whether it is daylight saving time, and its name.
fn add_local(builder: &mut AnswerBuilder, state: &Local) {
    builder.add_debug(&state.offset);
    builder.add_bytes(b" ");
    builder.add_debug(&state.dst);
    builder.add_bytes(b" ");
    builder.add_bytes(state.name.as_slice());
}

/// A date: its day form, and the seconds from midnight.
fn add_date(builder: &mut AnswerBuilder, date: Date) {
    builder.add_bytes(b", ");
    match date.day {
        DayForm::Julian(day) => {
            builder.add_bytes(b"J");
            builder.add_debug(&day);
        }
        DayForm::YearDay(day) => builder.add_debug(&day),
        DayForm::Week {
            month,
            week,
            weekday,
        } => add_week(builder, month, week, weekday),
    }
    builder.add_bytes(b" ");
    builder.add_debug(&date.time);
}

fn add_week(builder: &mut AnswerBuilder, month: u8, week: u8, weekday: u8) {
    builder.add_bytes(b"M");
    builder.add_debug(&month);
    builder.add_bytes(b".");
    builder.add_debug(&week);
    builder.add_bytes(b".");
    builder.add_debug(&weekday);
}

/// `footer-state TEXT SECONDS`: the state at a moment by a TZ string.
pub fn state(alloc: Global, row: &Row) -> Answer {
    let (footer, moment) = (footer(row)?, moment(row)?);
    let mut builder = AnswerBuilder::new(alloc);
    add_local(&mut builder, &at(&footer, moment));
    builder.finish()
}

/// `next TEXT SECONDS`: the next onset after a moment.
pub fn next(alloc: Global, row: &Row) -> Answer {
    let (footer, moment) = (footer(row)?, moment(row)?);
    match next_onset(&footer, moment) {
        Some(next) => debug_text(alloc, &next.seconds),
        None => case_lines::bytes(alloc, b"none"),
    }
}

/// `onset TEXT YEAR EDGE`: the onset of an edge, `start` or `end`, in a year.
pub fn edge(alloc: Global, row: &Row) -> Answer {
    let edge = edge_of(row.word(2)?);
    let year = row.signed_number(1)?;
    if year < 1798 || 9999 < year {
        return Err(CaseFault::Strange);
    }
    let footer = footer(row)?;
    match &footer.dst {
        Some(rule) => {
            let onset = onset(rule, footer.std.offset, year as i32, edge);
            debug_text(alloc, &onset.seconds)
        }
        None => Err(CaseFault::Strange),
    }
}

fn edge_of(word: &[u8]) -> Edge {
    if word == b"start".as_slice() {
        Edge::Start
    } else {
        Edge::End
    }
}

/// The rule of the first word.
fn footer(row: &Row) -> Result<Footer, CaseFault>
    ensures { IfOk result IsLawful }
{
    match read(row.word(0)?) {
        Ok(footer) => Ok(footer),
        Err(_) => Err(CaseFault::Strange),
    }
}

/// The moment of the second word, which must be within the supported range.
fn moment(row: &Row) -> Result<Moment, CaseFault>
    ensures { IfOk result (λ m. HasMeaning m.seconds) }
{
    let seconds = row.signed_number(1)?;
    if seconds < LO || HI <= seconds {
        return Err(CaseFault::Strange);
    }
    Ok(Moment { seconds })
}
