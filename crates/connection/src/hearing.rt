ghost use Rattle.std.specs.Prelude.{◌<◌, ◌≤◌, length};
ghost use Rattle.http_request.specs.declared.limits.TheConstants.{MOST_HEAD_BYTES};
ghost use Rattle.connection.specs.Hearing.{Feeds, Hears, most_held};

use http_request::{Head, Heads, Next, gives};
use std::alloc::Global;
use td_base::{Conn, NoMemory, ReadStep};

/// The most bytes that one read of a connection requests.
pub const PIECE: usize = 4_096;

/// How many bytes one read requests: more than most heads have. The room for them is cleared for
/// each stretch of a connection, so more would cost each request.
const ROOM: usize = 512;

/// Room for what one read gives.
pub type Room = [u8; ROOM];

/// Such room.
pub const CLEARED: Room = [0; ROOM];

/// What was received from a connection.
#[derive(Drop)]
pub enum Arrival {
    /// A request.
    Request(Head),
    /// A head that is refused, with this HTTP status.
    Refused(u16),
    /// The input ended.
    Ended,
    /// A read failed.
    ReadFault,
}

/// The result of one read.
#[derive(Clone, Copy, PartialEq, Eq)]
pub enum ReadPiece {
    /// At least one byte, which is now held.
    Fed,
    /// The input ended.
    Ended,
    /// The read failed.
    Failed,
    /// There is no memory for the bytes.
    NoMemory,
}

/// The next head. Reads pieces only while the held bytes contain no whole head.
pub fn hear<C: Conn>(
    alloc: Global,
    heads: &mut Heads,
    conn: &mut C,
    room: &mut Room,
) -> Result<Arrival, NoMemory>
    requires { heads.old.size ≤ most_held }
    ensures hears { Hears (C.seen conn.old) (C.seen conn.new) heads.old.rest heads.new.rest
        result }
    ensures held { heads.new.size ≤ most_held }
{
    'pieces: loop {
        match heads.next(alloc)? {
            Next::Request(head) => return Ok(Arrival::Request(head)),
            Next::Bad(status) => return Ok(Arrival::Refused(status)),
            Next::More => match feed(heads, conn, room) {
                ReadPiece::Fed => {}
                ReadPiece::Ended => return Ok(Arrival::Ended),
                ReadPiece::Failed => return Ok(Arrival::ReadFault),
                ReadPiece::NoMemory => return Err(NoMemory),
            },
        }
    }
}

/// Reads one piece and holds it.
fn feed<C: Conn>(heads: &mut Heads, conn: &mut C, room: &mut Room) -> ReadPiece
    requires fits { length heads.old.rest < MOST_HEAD_BYTES }
    requires held { heads.old.size ≤ most_held }
    ensures feeds { Feeds (C.seen conn.old) (C.seen conn.new) heads.old.rest heads.new.rest
        result }
    ensures held { heads.new.size ≤ most_held }
{
    match conn.read(room) {
        ReadStep::Got(count) => match heads.feed(&room[..count]) {
            Ok(()) => ReadPiece::Fed,
            Err(_) => {
                gives();
                ReadPiece::NoMemory
            }
        },
        ReadStep::End => ReadPiece::Ended,
        ReadStep::Failed => ReadPiece::Failed,
    }
}
