//! Tables of leap seconds.
use crate::plans::leap_lines;
use case_lines::{Answer, AnswerBuilder, CaseFault, Row, display_text};
use catalogue::Leaps;
use leap_table::from_file;
use std::alloc::Global;
use td_base::{Bytes, Items};
use tzif_reader::{LeapLine, MOST_BYTES, ZoneFile};

/// `leaps LINES`: the days from 1970-01-01 with their offsets, and the bytes and the date that were
/// given with the lines; or the fault of the lines.
pub fn steps(alloc: Global, row: &Row) -> Answer {
    let file = file_with(alloc, row.word(0)?)?;
    steps_of(alloc, &file)
}

fn steps_of(alloc: Global, file: &ZoneFile) -> Answer {
    if file.leaps.len() > MOST_BYTES {
        return Err(CaseFault::Strange);
    }
    match from_file(alloc, file, b"the file", b"2025-12-28") {
        Ok(table) => as_line(alloc, &table),
        Err(fault) => display_text(alloc, &fault),
    }
}

/// A file with these leap lines and nothing else.
fn file_with(alloc: Global, word: &[u8]) -> Result<ZoneFile, CaseFault> {
    let mut leaps = Items::new(alloc);
    add_lines(alloc, &mut leaps, word)?;
    Ok(ZoneFile {
        moments: Items::new(alloc),
        numbers: Bytes::new(alloc),
        kinds: Items::new(alloc),
        leaps,
        footer: Bytes::new(alloc),
    })
}

fn add_lines(alloc: Global, leaps: &mut Items<LeapLine>, word: &[u8]) -> Result<(), CaseFault> {
    for (at, correction) in leap_lines(alloc, word)?.as_slice() {
        leaps.push(LeapLine {
            at: *at,
            correction: *correction,
        })?;
    }
    Ok(())
}

fn as_line(alloc: Global, table: &Leaps) -> Answer {
    let mut builder = AnswerBuilder::new(alloc);
    for step in table.steps.as_slice() {
        builder.add_debug(&step.day);
        builder.add_bytes(b" ");
        builder.add_debug(&step.offset);
        builder.add_bytes(b";");
    }
    builder.add_bytes(b" ");
    builder.add_bytes(table.file.as_slice());
    builder.add_bytes(b" ");
    builder.add_bytes(table.expires.as_slice());
    builder.finish()
}
