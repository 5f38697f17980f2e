//! Connections in memory, some of whose calls fail, and a connection made of a source and a sink.
ghost use Rattle.td_base.specs.Views.{LaterConn, LaterSink, LaterSource};

use crate::given;
use case_lines::{Answer, AnswerBuilder, CaseFault, Row, debug_text};
use std::alloc::Global;
use td_base::{Conn, FaultyConn, Joined, MemoryConn, ReadStep, Sink, Source, send_whole, texts};

/// `conn INPUT SIZES ROOM READS WRITES CALL ..`: the result of each call, and what the connection
/// gave and took. READS and WRITES are the numbers of the calls that fail. A call is `read`, into
/// four bytes, `write:TEXT` or `send:TEXT`.
pub fn conn(alloc: Global, row: &Row) -> Answer {
    let mut conn = faulty(alloc, row)?;
    let mut builder = AnswerBuilder::new(alloc);
    for call in given::words(row, 5) {
        builder.add_answer(act(alloc, &mut conn, call.as_slice()));
    }
    add_conn(&mut builder, conn.inner());
    builder.finish()
}

fn faulty(alloc: Global, row: &Row) -> Result<FaultyConn<MemoryConn>, CaseFault> {
    let reads = given::calls(alloc, row, 3)?;
    let writes = given::calls(alloc, row, 4)?;
    Ok(FaultyConn::new(inner(alloc, row)?, reads, writes))
}

fn inner(alloc: Global, row: &Row) -> Result<MemoryConn, CaseFault> {
    let sink = given::whole_sink(alloc, row, 2)?;
    Ok(MemoryConn::new(given::source(alloc, row, 0)?, sink))
}

/// The result of one call.
fn act<C: Conn>(alloc: Global, conn: &mut C, call: &[u8]) -> Answer {
    let (verb, text) = texts::cut(call, b':');
    let text = text.unwrap_or(&[]);
    match verb {
        b"read" => read(alloc, conn),
        b"send" => debug_text(alloc, &send_whole(conn, text)),
        _ => write(alloc, conn, text),
    }
}

/// The result of one read.
fn read<C: Conn>(alloc: Global, conn: &mut C) -> Answer {
    let mut room = [0; 4];
    match conn.read(&mut room) {
        ReadStep::Got(count) => case_lines::bytes(alloc, &room[..count]),
        ReadStep::End => case_lines::bytes(alloc, b"(end)"),
        ReadStep::Failed => case_lines::bytes(alloc, b"(failed)"),
    }
}

/// The result of one write.
fn write<C: Conn>(alloc: Global, conn: &mut C, piece: &[u8]) -> Answer {
    if piece.is_empty() {
        return Err(CaseFault::Strange);
    }
    debug_text(alloc, &conn.write(piece))
}

/// Appends what a connection gave and took.
pub fn add_conn(builder: &mut AnswerBuilder, conn: &MemoryConn) {
    add_both(builder, conn.source.given(), conn.sink.taken());
}

fn add_both(builder: &mut AnswerBuilder, given: &[u8], taken: &[u8]) {
    builder.add_bytes(b" given ");
    builder.add_bytes(given);
    builder.add_bytes(b" taken ");
    builder.add_bytes(taken);
}

/// `joined INPUT ROOM TIMES`: what a source gave and a sink took after TIMES echoes, each of which
/// reads at most three bytes and writes them back.
pub fn echoes(alloc: Global, row: &Row) -> Answer {
    let times = row.number(2)?;
    let mut sink = given::whole_sink(alloc, row, 1)?;
    let mut source = given::whole_source(alloc, row, 0)?;
    for _ in 0..times {
        echo_between(&mut source, &mut sink);
    }
    let mut builder = AnswerBuilder::new(alloc);
    add_both(&mut builder, source.given(), sink.taken());
    builder.finish()
}

/// Writes back the bytes of one read.
pub fn echo<C: Conn>(conn: &mut C)
    ensures { LaterConn (C.seen conn.old) (C.seen conn.new) }
{
    let mut room = [0; 3];
    if let ReadStep::Got(count) = conn.read(&mut room) {
        let _ = conn.write(&room[..count]);
    }
}

/// The owner of a source and a sink knows what happened to them while they were joined.
fn echo_between<C: Source, K: Sink>(source: &mut C, sink: &mut K)
    ensures source { LaterSource (C.seen source.old) (C.seen source.new) }
    ensures sink { LaterSink (K.seen sink.old) (K.seen sink.new) }
{
    let mut conn = Joined::new(source, sink);
    echo(&mut conn);
}
