//! Parsing zone files.
use case_lines::{Answer, AnswerBuilder, CaseFault, Row, display_text};
use std::alloc::Global;
use td_base::texts;
use td_civil::{Local, Moment};
use tzif_reader::{LeapLine, TzifFault, ZoneFile, read};

/// `file BYTES`: its content, or its fault.
pub fn file(alloc: Global, row: &Row) -> Answer {
    match read(alloc, row.word(0)?) {
        Ok(file) => as_line(alloc, &file),
        Err(fault) => display_text(alloc, &fault),
    }
}

/// `start BYTES LENGTH`: the fault of the first LENGTH bytes of a file.
pub fn start(alloc: Global, row: &Row) -> Answer {
    let length = row.number(1)? as usize;
    fault_of(alloc, texts::start(row.word(0)?, length))
}

/// `edited BYTES PLACE BYTES`, with more places: the fault of a file in which these bytes replace
/// those at these places.
pub fn edit(alloc: Global, row: &Row) -> Answer {
    let mut bytes = Vec::from_slice(alloc, row.word(0)?)?;
    replace_all(bytes.as_mut_slice(), row)?;
    fault_of(alloc, bytes.as_slice())
}

fn replace_all(bytes: &mut [u8], row: &Row) -> Result<(), CaseFault> {
    for at in 0..row.words().len().saturating_sub(1) / 2 {
        let (place, with) = (row.number(at * 2 + 1)?, row.word(at * 2 + 2)?);
        replace(bytes, place as usize, with)?;
    }
    Ok(())
}

fn replace(bytes: &mut [u8], place: usize, with: &[u8]) -> Result<(), CaseFault> {
    let Some(rest) = bytes.get_mut(place..) else {
        return Err(CaseFault::Strange);
    };
    for (byte, other) in rest.iter_mut().zip(with) {
        *byte = *other;
    }
    Ok(())
}

/// `no-memory`: what is printed when memory runs out.
pub fn no_memory(alloc: Global) -> Answer {
    display_text(alloc, &TzifFault::NoMemory)
}

fn fault_of(alloc: Global, bytes: &[u8]) -> Answer {
    match read(alloc, bytes) {
        Ok(_) => case_lines::bytes(alloc, b"no fault"),
        Err(fault) => display_text(alloc, &fault),
    }
}

/// The content of a file: its moments, numbers, types, leap lines and footer.
fn as_line(alloc: Global, file: &ZoneFile) -> Answer {
    let mut builder = AnswerBuilder::new(alloc);
    add_moments(&mut builder, file.moments.as_slice());
    builder.add_bytes(b", numbers ");
    builder.add_debug(&file.numbers.as_slice());
    add_kinds(&mut builder, file.kinds.as_slice());
    add_leaps(&mut builder, file.leaps.as_slice());
    builder.add_bytes(b", footer ");
    builder.add_bytes(file.footer.as_slice());
    builder.finish()
}

fn add_moments(builder: &mut AnswerBuilder, moments: &[Moment]) {
    builder.add_bytes(b"moments");
    for moment in moments {
        builder.add_bytes(b" ");
        builder.add_debug(&moment.seconds);
    }
}

fn add_kinds(builder: &mut AnswerBuilder, kinds: &[Local]) {
    builder.add_bytes(b", types");
    for kind in kinds {
        builder.add_bytes(b" ");
        builder.add_debug(&kind.offset);
        builder.add_bytes(b" ");
        builder.add_debug(&kind.dst);
        builder.add_bytes(b" ");
        builder.add_bytes(kind.name.as_slice());
    }
}

fn add_leaps(builder: &mut AnswerBuilder, leaps: &[LeapLine]) {
    builder.add_bytes(b", leaps");
    for line in leaps {
        builder.add_bytes(b" ");
        builder.add_debug(&line.at);
        builder.add_bytes(b" ");
        builder.add_debug(&line.correction);
    }
}
