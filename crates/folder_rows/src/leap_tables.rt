//! Tables of leap seconds.
use crate::answering::strange;
use case_lines::{Answer, AnswerBuilder, CaseFault, Row, display_text, signed_number};
use catalogue::{LeapStep, Leaps};
use leap_table::from_file;
use std::alloc::Global;
use td_base::{Bytes, Items, texts};
use tzif_reader::{LeapLine, MOST_BYTES, ZoneFile};

/// `leap-table LINES`: the days from 1970-01-01 with their offsets, or the fault as it is printed.
/// The lines are `TIME:CORRECTION`, separated by commas. A dash means none.
pub fn table(alloc: Global, row: &Row) -> Answer {
    let file = file_with(alloc, row.word(0)?)?;
    as_line(alloc, &file)
}

fn as_line(alloc: Global, file: &ZoneFile) -> Answer {
    if file.leaps.len() > MOST_BYTES {
        return strange();
    }
    match from_file(alloc, file, b"the file", b"2025-12-28") {
        Ok(table) => steps(alloc, &table),
        Err(fault) => display_text(alloc, &fault),
    }
}

/// A file with these leap lines and nothing else.
fn file_with(alloc: Global, lines: &[u8]) -> Result<ZoneFile, CaseFault> {
    Ok(ZoneFile {
        leaps: leap_lines(alloc, lines)?,
        moments: Items::new(alloc),
        numbers: Bytes::new(alloc),
        kinds: Items::new(alloc),
        footer: Bytes::new(alloc),
    })
}

fn leap_lines(alloc: Global, lines: &[u8]) -> Result<Items<LeapLine>, CaseFault> {
    let mut leaps = Items::new(alloc);
    add_lines(lines, &mut leaps)?;
    Ok(leaps)
}

fn add_lines(lines: &[u8], leaps: &mut Items<LeapLine>) -> Result<(), CaseFault> {
    if lines != b"-".as_slice() {
        for line in lines.split(|byte| *byte == b',') {
            leaps.push(leap_line(line)?)?;
        }
    }
    Ok(())
}

fn leap_line(line: &[u8]) -> Result<LeapLine, CaseFault> {
    let (at, correction) = texts::cut(line, b':');
    Ok(LeapLine {
        at: signed_number(at)?,
        correction: short(correction.unwrap_or(&[]))?,
    })
}

/// Parses a signed number of 32 bits.
fn short(word: &[u8]) -> Result<i32, CaseFault> {
    i32::try_from(signed_number(word)?)
        .ok()
        .ok_or(CaseFault::Strange)
}

/// The file and its expiry, and the steps after them.
pub fn steps(alloc: Global, table: &Leaps) -> Answer {
    let mut builder = AnswerBuilder::new(alloc);
    builder.add_bytes(table.expires.as_slice());
    builder.add_bytes(b" ");
    builder.add_display(&table.file.len());
    for step in table.steps.as_slice() {
        add_step(&mut builder, step);
    }
    builder.finish()
}

fn add_step(builder: &mut AnswerBuilder, step: &LeapStep) {
    builder.add_bytes(b";");
    builder.add_display(&step.day);
    builder.add_bytes(b" ");
    builder.add_display(&step.offset);
}
