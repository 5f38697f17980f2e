//! The objects in memory that the words of a row describe.
ghost use Rattle.std.specs.Prelude.{IfOk};
ghost use Rattle.td_base.specs.MemoryDoors.{IsFresh};

use case_lines::{CaseFault, Row, numbers};
use std::alloc::Global;
use td_base::{Bytes, FaultyConn, Items, MemoryConn, MemorySink, MemorySource};

/// The words from a position on.
pub fn words(row: &Row, from: usize) -> &[Vec<u8>] {
    row.words().get(from..).unwrap_or(&[])
}

/// The number at a position, below 2 to the 32nd.
pub fn small(row: &Row, at: usize) -> Result<u32, CaseFault> {
    u32::try_from(row.number(at)?)
        .ok()
        .ok_or(CaseFault::Strange)
}

/// The bytes at a position.
pub fn bytes(alloc: Global, row: &Row, at: usize) -> Result<Bytes, CaseFault> {
    Ok(Bytes::from_slice(alloc, row.word(at)?)?)
}

/// The numbers of the calls that fail, separated by commas. A dash means none.
pub fn calls(alloc: Global, row: &Row, at: usize) -> Result<Items<u64>, CaseFault> {
    Ok(Items::from(numbers(alloc, row.word(at)?)?))
}

/// The sizes of pieces, separated by commas. A dash means none.
fn sizes(alloc: Global, word: &[u8]) -> Result<Items<usize>, CaseFault> {
    let numbers = numbers(alloc, word)?;
    let mut sizes = Items::new(alloc);
    for size in numbers.as_slice() {
        sizes.push(*size as usize)?;
    }
    Ok(sizes)
}

/// A source of the bytes at a position, in pieces of the sizes after them, if given.
pub fn source(alloc: Global, row: &Row, at: usize) -> Result<MemorySource, CaseFault> {
    let sizes = row.word(at.saturating_add(1))?;
    if sizes == b"-".as_slice() {
        return whole_source(alloc, row, at);
    }
    let sizes = self::sizes(alloc, sizes)?;
    Ok(MemorySource::in_pieces(bytes(alloc, row, at)?, sizes))
}

/// A source of the bytes at a position, in one piece.
pub fn whole_source(alloc: Global, row: &Row, at: usize) -> Result<MemorySource, CaseFault> {
    Ok(MemorySource::new(bytes(alloc, row, at)?))
}

/// A sink with the room at a position, which takes pieces of the sizes after it, if given.
pub fn sink(alloc: Global, row: &Row, at: usize) -> Result<MemorySink, CaseFault> {
    let sizes = row.word(at.saturating_add(1))?;
    if sizes == b"-".as_slice() {
        return whole_sink(alloc, row, at);
    }
    let room = row.number(at)? as usize;
    Ok(MemorySink::in_pieces(alloc, room, self::sizes(alloc, sizes)?)?)
}

/// A sink with the room at a position, which takes whole pieces.
pub fn whole_sink(alloc: Global, row: &Row, at: usize) -> Result<MemorySink, CaseFault> {
    Ok(MemorySink::new(alloc, row.number(at)? as usize)?)
}

/// A connection with this input, room for eight bytes, and no call that fails.
pub fn conn(alloc: Global, input: &[u8]) -> Result<FaultyConn<MemoryConn>, CaseFault>
    ensures { IfOk result IsFresh }
{
    let sink = MemorySink::new(alloc, 8)?;
    let source = MemorySource::new(Bytes::from_slice(alloc, input)?);
    let conn = MemoryConn::new(source, sink);
    Ok(FaultyConn::new(conn, Items::new(alloc), Items::new(alloc)))
}
