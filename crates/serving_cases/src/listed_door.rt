//! A door that answers by a list, and keeps what was handed back.
ghost use Rattle.std.specs.Prelude.{◌≡◌};

use std::alloc::Global;
use std::collections::VecDeque;
use td_base::{
    Accepted, Bytes, Door, DoorAnswer, FaultyConn, Items, MemoryConn, MemorySink, MemorySource,
    NoMemory, Report,
};

/// How many bytes a connection accepts.
const ROOM: usize = 300_000;

/// A connection in which no call has failed yet.
#[derive(Drop)]
pub struct NewConn {
    conn: FaultyConn<MemoryConn>,
    ghost reads: { conn.reads.faults ≡ 0 },
    ghost writes: { conn.writes.faults ≡ 0 },
}

/// What the door answers at one call. After the last it answers that no connection is still to
/// come.
#[derive(Drop)]
enum ListedStep {
    Conn(NewConn),
    Idle,
    Fails,
}

/// The door. Contracts see only its last answer.
#[derive(Drop)]
pub struct ListedDoor {
    steps: VecDeque<ListedStep>,
    last: Option<DoorAnswer>,
    faults: u64,
    pub finished: Vec<(FaultyConn<MemoryConn>, Report)>,
}

/// A connection with this input, whose first read fails if requested.
fn new_conn(alloc: Global, input: &[u8], fails: bool) -> Result<NewConn, NoMemory> {
    let source = MemorySource::new(Bytes::from_slice(alloc, input)?);
    let sink = MemorySink::new(alloc, ROOM)?;
    let mut reads = Items::new(alloc);
    if fails {
        reads.push(1)?;
    }
    let conn = FaultyConn::new(MemoryConn::new(source, sink), reads, Items::new(alloc));
    Ok(NewConn { conn })
}

impl ListedDoor {
    /// A door with these steps. `c` and `p` are a connection with a list request, and `r` one whose
    /// first read fails. `i` is no waiting connection, and any other letter is a failure.
    pub fn new(alloc: Global, letters: &[u8]) -> Result<ListedDoor, NoMemory> {
        let input = b"GET /tzdist/zones HTTP/1.1\r\nHost: x\r\n\r\n";
        let mut steps = VecDeque::new(alloc);
        for letter in letters {
            steps.push_back(match *letter {
                b'c' | b'p' => ListedStep::Conn(new_conn(alloc, input, false)?),
                b'r' => ListedStep::Conn(new_conn(alloc, input, true)?),
                b'i' => ListedStep::Idle,
                _ => ListedStep::Fails,
            })?;
        }
        let finished = Vec::with_capacity(alloc, letters.len())?;
        Ok(ListedDoor {
            steps,
            last: None,
            faults: 0,
            finished,
        })
    }

    /// How many steps are left.
    pub fn steps_left(&self) -> usize {
        self.steps.len()
    }
}

impl Door for ListedDoor {
    ghost use Rattle.std.specs.Prelude.{None};

    type Conn = FaultyConn<MemoryConn>;

    ghost seen = { λ d. record { content = None; last = d.last; faults = d.faults } };

    fn accept(&mut self) -> Accepted<FaultyConn<MemoryConn>> {
        match self.steps.pop_front() {
            Some(ListedStep::Conn(NewConn { conn })) => {
                self.last = Some(DoorAnswer::Given);
                Accepted::Given(conn)
            }
            Some(ListedStep::Idle) => {
                self.last = Some(DoorAnswer::Idle);
                Accepted::Idle
            }
            Some(ListedStep::Fails) => {
                self.last = Some(DoorAnswer::Failed);
                self.faults = self.faults.saturating_add(1);
                Accepted::Failed
            }
            None => {
                self.last = Some(DoorAnswer::Ended);
                Accepted::Ended
            }
        }
    }

    fn finish(&mut self, conn: FaultyConn<MemoryConn>, report: Report) {
        let _ = self.finished.push((conn, report));
    }
}
