//! Streams that are read and written.
use case_lines::{Answer, AnswerBuilder, CaseFault, Row};
use devices::{RealSink, RealSource};
use std::alloc::Global;
use std::io;
use std::io::{Error, ErrorKind, Read};
use td_base::{ReadStep, Sink, Source};

/// A stream in which each read fails.
#[derive(Drop)]
struct BrokenStream;

impl Read for BrokenStream {
    fn read(&mut self, _buf: &mut [u8]) -> io::Result<usize> {
        Err(Error::from(ErrorKind::BrokenPipe))
    }
}

/// `reads ROOM CALLS TEXT`: the results of CALLS reads of a stream, each into ROOM bytes, and why
/// the last failed read failed.
pub fn reads(alloc: Global, row: &Row) -> Answer {
    let (room, calls) = (row.number(0)? as usize, row.number(1)?);
    let mut source = RealSource::new(row.word(2)?);
    each_read(alloc, &mut source, room, calls)
}

/// `broken`: the same for one read of a stream in which each read fails.
pub fn read_broken(alloc: Global) -> Answer {
    let mut source = RealSource::new(BrokenStream);
    each_read(alloc, &mut source, 2, 1)
}

fn each_read<R: Read>(
    alloc: Global,
    source: &mut RealSource<R>,
    room: usize,
    calls: u64,
) -> Answer {
    let mut builder = AnswerBuilder::new(alloc);
    for _ in 0..calls {
        builder.add_answer(one_read(alloc, source, room));
    }
    builder.add_debug(&source.failure());
    builder.finish()
}

/// The result of one read, and its bytes.
fn one_read<S: Source>(alloc: Global, source: &mut S, room: usize) -> Answer {
    let mut bytes = vec![in alloc; 0; room.max(1)]?;
    let step = source.read(&mut bytes);
    let mut builder = AnswerBuilder::new(alloc);
    builder.add_debug(&step);
    builder.add_bytes(b" ");
    if let ReadStep::Got(count) = step {
        builder.add_bytes(bytes.get(..count).unwrap_or(&[]));
    }
    builder.finish()
}

/// `writes ROOM PIECE ..`: the results of writing the pieces to a stream with ROOM bytes, each with
/// the failure of the stream so far; and the buffer.
pub fn writes(alloc: Global, row: &Row) -> Answer {
    let mut room = vec![in alloc; b'-'; row.number(0)? as usize]?;
    let mut builder = AnswerBuilder::new(alloc);
    each_write(row, room.as_mut_slice(), &mut builder);
    builder.add_bytes(room.as_slice());
    builder.finish()
}

fn each_write(row: &Row, room: &mut [u8], builder: &mut AnswerBuilder) {
    let mut sink = RealSink::new(room);
    for piece in row.words().get(1..).unwrap_or(&[]) {
        one_write(&mut sink, piece.as_slice(), builder);
        builder.add_bytes(b" ");
        builder.add_debug(&sink.failure());
        builder.add_bytes(b"|");
    }
}

fn one_write<S: Sink>(sink: &mut S, piece: &[u8], builder: &mut AnswerBuilder) {
    if piece.is_empty() {
        builder.fail(CaseFault::Strange);
    } else {
        builder.add_debug(&sink.write(piece));
    }
}
