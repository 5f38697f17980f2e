//! Content lines, written and read.
use case_lines::{Answer, CaseFault, Row};
use ical_lines::BadLine;
use std::alloc::Global;
use td_base::Bytes;

/// `line NAME VALUE`: the content line, after another.
pub fn line(alloc: Global, row: &Row) -> Answer {
    let (name, value) = (row.word(0)?, row.word(1)?);
    let mut out = Bytes::from_slice(alloc, b"A:b\r\n")?;
    ical_lines::line(&mut out, name, value)?;
    Ok(out.into_vec())
}

/// `unfold TEXT`: its lines, each followed by a bar, or its fault.
pub fn unfold(alloc: Global, row: &Row) -> Answer {
    match ical_lines::unfold(alloc, row.word(0)?) {
        Ok(lines) => with_bars(alloc, lines.as_slice()),
        Err(BadLine::NoMemory) => Err(CaseFault::NoMemory),
        Err(fault) => Ok(format!(in alloc; "{fault}")?.into_bytes()),
    }
}

fn with_bars(alloc: Global, lines: &[Bytes]) -> Answer {
    let mut out = Bytes::new(alloc);
    for line in lines {
        out.append(line.as_slice())?;
        out.append(b"|")?;
    }
    Ok(out.into_vec())
}
