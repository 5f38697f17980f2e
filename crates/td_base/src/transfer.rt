ghost use Rattle.td_base.specs.Transfer.{ReadsTo, WritesAll, Sends};

use crate::{Bytes, Conn, ReadStep, Sink, Source, SourceFault, WriteStep};
use std::alloc::Global;

/// How many bytes one read requests.
const ROOM: usize = 4096;

/// Whether a whole piece was written.
#[derive(Clone, Copy, Debug, PartialEq, Eq)]
pub enum Written {
    /// Every byte was taken.
    Whole,
    /// The sink failed after it had taken a prefix, which may be empty.
    Cut,
}

/// Reads a source to its end, or to `most` bytes of it.
pub fn read_to_end<C: Source>(
    alloc: Global,
    source: &mut C,
    most: usize,
) -> Result<Bytes, SourceFault>
    ensures { ReadsTo most (C.seen source.old) (C.seen source.new) result }
{
    let mut held = Bytes::new(alloc);
    let mut room = [0; ROOM];
    'pieces: while held.len() < most {
        let want = ROOM.min(most - held.len());
        match source.read(&mut room[..want]) {
            ReadStep::Got(count) => held.append(&room[..count])?,
            ReadStep::End => return Ok(held),
            ReadStep::Failed => return Err(SourceFault::Failed),
        }
    }
    Ok(held)
}

/// Writes all the bytes. If the sink fails, it has taken a prefix of them.
pub fn write_whole<K: Sink>(sink: &mut K, bytes: &[u8]) -> Written
    ensures { WritesAll (K.seen sink.old) (K.seen sink.new) bytes.now result }
{
    let mut at = 0;
    'pieces: while at < bytes.len() {
        match sink.write(&bytes[at..]) {
            WriteStep::Took(count) => at += count,
            WriteStep::Failed => return Written::Cut,
        }
    }
    Written::Whole
}

/// Writes all the bytes to a connection. If a write fails, the connection has taken a prefix of
/// them.
pub fn send_whole<C: Conn>(conn: &mut C, bytes: &[u8]) -> Written
    ensures { Sends (C.seen conn.old) (C.seen conn.new) bytes.now result }
{
    let mut at = 0;
    'pieces: while at < bytes.len() {
        match conn.write(&bytes[at..]) {
            WriteStep::Took(count) => at += count,
            WriteStep::Failed => return Written::Cut,
        }
    }
    Written::Whole
}
