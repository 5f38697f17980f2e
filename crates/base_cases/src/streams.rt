//! Sources and sinks in memory, some of whose calls fail, and whole transfers.
use crate::given;
use case_lines::{Answer, AnswerBuilder, CaseFault, Row, debug_text};
use std::alloc::Global;
use td_base::{
    Faulty, MemorySink, MemorySource, ReadStep, Sink, Source, SourceFault, read_to_end, write_whole,
};

/// `source BYTES SIZES FAILING READS`: the results of READS reads into three bytes, and what the
/// source gave.
pub fn source(alloc: Global, row: &Row) -> Answer {
    let reads = row.number(3)?;
    let mut source = faulty_source(alloc, row)?;
    let mut builder = AnswerBuilder::new(alloc);
    for _ in 0..reads {
        builder.add_answer(read(alloc, &mut source));
    }
    builder.add_bytes(b" given ");
    builder.add_bytes(source.inner().given());
    builder.finish()
}

fn faulty_source(alloc: Global, row: &Row) -> Result<Faulty<MemorySource>, CaseFault> {
    let failing = given::calls(alloc, row, 2)?;
    Ok(Faulty::new(given::source(alloc, row, 0)?, failing))
}

/// The result of one read.
fn read<C: Source>(alloc: Global, source: &mut C) -> Answer {
    let mut room = [0; 3];
    match source.read(&mut room) {
        ReadStep::Got(count) => case_lines::bytes(alloc, &room[..count]),
        ReadStep::End => case_lines::bytes(alloc, b"(end)"),
        ReadStep::Failed => case_lines::bytes(alloc, b"(failed)"),
    }
}

/// `sink ROOM SIZES FAILING PIECE ..`: the result of a write of each piece, and what the sink took
/// and has room for afterwards.
pub fn sink(alloc: Global, row: &Row) -> Answer {
    let mut sink = faulty_sink(alloc, row)?;
    let mut builder = AnswerBuilder::new(alloc);
    for piece in given::words(row, 3) {
        builder.add_answer(write(alloc, &mut sink, piece.as_slice()));
    }
    add_sink(&mut builder, sink.inner());
    builder.finish()
}

/// Appends what a sink took and has room for.
fn add_sink(builder: &mut AnswerBuilder, sink: &MemorySink) {
    builder.add_bytes(b" taken ");
    builder.add_bytes(sink.taken());
    builder.add_bytes(b" room ");
    builder.add_debug(&sink.room());
}

fn faulty_sink(alloc: Global, row: &Row) -> Result<Faulty<MemorySink>, CaseFault> {
    let failing = given::calls(alloc, row, 2)?;
    Ok(Faulty::new(given::sink(alloc, row, 0)?, failing))
}

/// The result of one write.
fn write<K: Sink>(alloc: Global, sink: &mut K, piece: &[u8]) -> Answer {
    if piece.is_empty() {
        return Err(CaseFault::Strange);
    }
    debug_text(alloc, &sink.write(piece))
}

/// `read-to-end BYTES SIZES FAILING MOST`: what is read of a source, up to MOST bytes.
pub fn to_end(alloc: Global, row: &Row) -> Answer {
    let most = row.number(3)? as usize;
    let mut source = faulty_source(alloc, row)?;
    read_whole(alloc, &mut source, most)
}

fn read_whole<C: Source>(alloc: Global, source: &mut C, most: usize) -> Answer {
    match read_to_end(alloc, source, most) {
        Ok(bytes) => Ok(bytes.into_vec()),
        Err(SourceFault::NoMemory) => Err(CaseFault::NoMemory),
        Err(SourceFault::Failed) => case_lines::bytes(alloc, b"(failed)"),
    }
}

/// `write-whole ROOM SIZES TEXT TEXT`: how the two texts are written, and what was taken.
pub fn whole(alloc: Global, row: &Row) -> Answer {
    let (first, second) = (row.word(2)?, row.word(3)?);
    let mut sink = given::sink(alloc, row, 0)?;
    let mut builder = AnswerBuilder::new(alloc);
    builder.add_debug(&write_whole(&mut sink, first));
    builder.add_bytes(b", ");
    builder.add_debug(&write_whole(&mut sink, second));
    builder.add_bytes(b", ");
    builder.add_bytes(sink.taken());
    builder.finish()
}
