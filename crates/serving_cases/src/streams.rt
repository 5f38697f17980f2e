//! One connection that is served over a desk.
use crate::desks::one_desk;
use case_lines::{Answer, Row, debug_text};
use catalogue::Catalogue;
use connection::serve;
use publication::Desk;
use std::alloc::{AllocError, Global};
use std::sync::Wait;
use td_base::{
    Bytes, FaultyConn, Items, MemoryConn, MemorySink, MemorySource, NoMemory, Report, Role,
};
use zone_meaning::Zone;

/// `stream TEXT`: the result of a connection with this input, which is what is written to it, and
/// its report. The first read gives each number of bytes from 1 to 199 in turn.
pub fn stream<R: Wait>(rt: &R, alloc: Global, row: &Row) -> Answer {
    let input = row.word(0)?;
    let (publisher, desk) = one_desk(rt, alloc)?;
    let mut desk = desk;
    let answer = in_each_cut(alloc, &mut desk, input);
    publisher.close(rt);
    answer
}

/// `once CUT TEXT`: the same when the first read gives CUT bytes.
pub fn once<R: Wait>(rt: &R, alloc: Global, row: &Row) -> Answer {
    let (cut, input) = (row.number(0)?, row.word(1)?);
    let (publisher, desk) = one_desk(rt, alloc)?;
    let mut desk = desk;
    let answer = serve_stream(alloc, &mut desk, input, cut as usize);
    publisher.close(rt);
    answer
}

/// `computed TEXT`: how many answers were computed for a connection with this input.
pub fn computations<R: Wait>(rt: &R, alloc: Global, row: &Row) -> Answer {
    let input = row.word(0)?;
    let (publisher, desk) = one_desk(rt, alloc)?;
    let mut desk = desk;
    let counted = count_computed(alloc, &mut desk, input);
    publisher.close(rt);
    debug_text(alloc, &counted?)
}

fn count_computed(
    alloc: Global,
    desk: &mut Desk<Catalogue<Zone>>,
    input: &[u8],
) -> Result<u64, NoMemory> {
    let mut conn = conn_of(alloc, input, 1)?;
    let report = serve(alloc, &Role::Primary, desk, &mut conn);
    Ok(report.computed)
}

/// `refused TEXT`: the same after the publisher is gone, when each enter is refused.
pub fn without_publisher<R: Wait>(rt: &R, alloc: Global, row: &Row) -> Answer {
    let input = row.word(0)?;
    let (publisher, desk) = one_desk(rt, alloc)?;
    let mut desk = desk;
    publisher.close(rt);
    serve_stream(alloc, &mut desk, input, 1)
}

/// `failing READ WRITE CUT TEXT`: the same over a connection in which this read and this write
/// fail, counted from 1.
pub fn failing<R: Wait>(rt: &R, alloc: Global, row: &Row) -> Answer {
    let calls = (row.number(0)?, row.number(1)?);
    let (cut, input) = (row.number(2)?, row.word(3)?);
    let (publisher, desk) = one_desk(rt, alloc)?;
    let mut desk = desk;
    let answer = serve_failing(alloc, &mut desk, input, cut as usize, calls);
    publisher.close(rt);
    answer
}

fn in_each_cut(alloc: Global, desk: &mut Desk<Catalogue<Zone>>, input: &[u8]) -> Answer {
    let answer = serve_stream(alloc, desk, input, 1)?;
    for cut in 2..200 {
        let other = serve_stream(alloc, desk, input, cut)?;
        if other.as_slice() != answer.as_slice() {
            return differs(alloc, cut);
        }
    }
    Ok(answer)
}

fn differs(alloc: Global, cut: usize) -> Answer {
    Ok(format!(in alloc; "another answer where the first read gives {cut}")?.into_bytes())
}

fn serve_stream(
    alloc: Global,
    desk: &mut Desk<Catalogue<Zone>>,
    input: &[u8],
    cut: usize,
) -> Answer {
    let mut conn = conn_of(alloc, input, cut)?;
    let report = serve(alloc, &Role::Primary, desk, &mut conn);
    Ok(as_line(alloc, conn.sink.taken(), &report)?)
}

fn serve_failing(
    alloc: Global,
    desk: &mut Desk<Catalogue<Zone>>,
    input: &[u8],
    cut: usize,
    calls: (u64, u64),
) -> Answer {
    let inner = conn_of(alloc, input, cut)?;
    let mut conn = FaultyConn::new(inner, one(alloc, calls.0)?, one(alloc, calls.1)?);
    let report = serve(alloc, &Role::Primary, desk, &mut conn);
    Ok(as_line(alloc, conn.inner().sink.taken(), &report)?)
}

fn conn_of(alloc: Global, input: &[u8], cut: usize) -> Result<MemoryConn, NoMemory> {
    let mut sizes = Items::new(alloc);
    sizes.push(cut)?;
    let source = MemorySource::in_pieces(Bytes::from_slice(alloc, input)?, sizes);
    Ok(MemoryConn::new(source, MemorySink::new(alloc, 300_000)?))
}

fn one(alloc: Global, number: u64) -> Result<Items<u64>, NoMemory> {
    let mut numbers = Items::new(alloc);
    numbers.push(number)?;
    Ok(numbers)
}

/// What was written, a bar, how the connection ended, how many of its requests have a place, and
/// how many answers were computed.
fn as_line(alloc: Global, taken: &[u8], report: &Report) -> Result<Vec<u8>, AllocError> {
    let mut out = Vec::from_slice(alloc, taken)?;
    let (end, computed) = (report.end, report.computed);
    let places = report.places.as_slice().len();
    out.extend_from_slice(format!(in alloc; "|{end:?} {places} {computed}")?.as_bytes())?;
    Ok(out)
}
