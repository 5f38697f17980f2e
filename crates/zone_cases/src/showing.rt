//! How calendars and observances are printed: words separated by blanks, `-` for nothing, and a bar
//! before each part and between two observances.
use case_lines::Answer;
use recurrence::{Part, Rule};
use std::alloc::Global;
use td_base::{Bytes, NoMemory};
use td_civil::{Moment, Name, Observance};
use vtimezone_reader::Calendar;

/// The identifier, the zone whose alias it is, the end, and each part.
pub fn calendar_text(alloc: Global, calendar: &Calendar) -> Answer {
    let mut out = Bytes::new(alloc);
    out.append(calendar.tzid.as_slice())?;
    out.append(b" ")?;
    match &calendar.alias_of {
        Some(tzid) => out.append(tzid.as_slice())?,
        None => out.append(b"-")?,
    }
    out.append(b" ")?;
    append_moment(alloc, &mut out, calendar.until)?;
    for part in calendar.parts.as_slice() {
        append_part(alloc, &mut out, part)?;
    }
    Ok(out.into_vec())
}

/// The kind of time, the start, both offsets, the name, the dates, the rule and its end.
fn append_part(alloc: Global, out: &mut Bytes, part: &Part) -> Result<(), NoMemory> {
    out.append(b"|")?;
    append_kind(out, part.dst)?;
    let (start, from, to) = (part.start.seconds, part.from, part.to);
    out.append(format!(in alloc; " {start} {from} {to} ")?.as_bytes())?;
    append_name(out, &part.name)?;
    out.append(b" ")?;
    append_dates(alloc, out, part.dates.as_slice())?;
    out.append(b" ")?;
    append_rule(alloc, out, &part.rule)?;
    out.append(b" ")?;
    append_moment(alloc, out, part.until)
}

fn append_kind(out: &mut Bytes, dst: bool) -> Result<(), NoMemory> {
    out.append(if dst { b"dst" } else { b"std" })
}

fn append_name(out: &mut Bytes, name: &Name) -> Result<(), NoMemory> {
    match name.as_slice() {
        [] => out.append(b"-"),
        text => out.append(text),
    }
}

fn append_dates(alloc: Global, out: &mut Bytes, dates: &[Moment]) -> Result<(), NoMemory> {
    match dates {
        [] => out.append(b"-"),
        [first, rest @ ..] => {
            append_moment(alloc, out, Some(*first))?;
            for date in rest {
                out.append(b",")?;
                append_moment(alloc, out, Some(*date))?;
            }
            Ok(())
        }
    }
}

fn append_rule(alloc: Global, out: &mut Bytes, rule: &Option<Rule>) -> Result<(), NoMemory> {
    match rule {
        Some(rule) => out.append(format!(in alloc; "{rule:?}")?.as_bytes()),
        None => out.append(b"-"),
    }
}

fn append_moment(alloc: Global, out: &mut Bytes, moment: Option<Moment>) -> Result<(), NoMemory> {
    match moment {
        Some(moment) => {
            let seconds = moment.seconds;
            out.append(format!(in alloc; "{seconds}")?.as_bytes())
        }
        None => out.append(b"-"),
    }
}

/// The onset, the offset before it and after it, the kind of time and the name of each.
pub fn observances_text(alloc: Global, list: &[Observance]) -> Answer {
    let mut out = Bytes::new(alloc);
    for (at, observance) in list.iter().enumerate() {
        if at > 0 {
            out.append(b"|")?;
        }
        append_observance(alloc, &mut out, observance)?;
    }
    Ok(out.into_vec())
}

fn append_observance(
    alloc: Global,
    out: &mut Bytes,
    observance: &Observance,
) -> Result<(), NoMemory> {
    let (onset, from, to) = (observance.onset.seconds, observance.from, observance.to);
    out.append(format!(in alloc; "{onset} {from} {to} ")?.as_bytes())?;
    append_kind(out, observance.dst)?;
    out.append(b" ")?;
    append_name(out, &observance.name)
}
