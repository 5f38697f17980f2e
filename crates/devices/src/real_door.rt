ghost use Rattle.std.specs.Prelude.{◌≡◌};
ghost use Rattle.td_base.specs.Doors.{IsNewDoor};
ghost use Rattle.devices.specs.RealDoors.{door_view};

use crate::acceptor::Acceptor;
use crate::real_conn::RealConn;
use std::io;
use std::io::{Eprint, ErrorKind};
use std::net::{SocketAddr, TcpStream};
use std::time::Clock;
use td_base::{Accepted, Door, DoorAnswer, Report};

/// How often each listener sends at the end, at most.
const MOST_TURNS: u32 = 65_536;

/// One of the listeners at a socket. It keeps the connections that no worker serves, and returns
/// one only once a whole head has come, or bytes that can begin no head. It states nothing of its
/// connections. One that is handed back it keeps until its next head has come, or closes.
#[derive(Drop)]
pub struct RealDoor<R> {
    acceptor: Acceptor<R>,
    last: Option<DoorAnswer>,
    faults: u64,
    failure: Option<ErrorKind>,
}

impl<R: Clock + Eprint + Copy> RealDoor<R> {
    /// A listener that was not called yet.
    pub(crate) fn new(acceptor: Acceptor<R>) -> RealDoor<R>
        ensures { IsNewDoor (door_view result) }
    {
        RealDoor {
            acceptor,
            last: None,
            faults: 0,
            failure: None,
        }
    }

    /// The address at which it listens.
    pub fn local_addr(&self) -> io::Result<SocketAddr> {
        self.acceptor.local_addr()
    }

    /// Why the last failed accept failed.
    pub fn failure(&self) -> Option<ErrorKind>
        ensures { result ≡ self.now.failure }
    {
        self.failure
    }

    /// How often an accept failed.
    pub fn faults(&self) -> u64
        ensures { result ≡ self.now.faults }
    {
        self.faults
    }

    /// How many of its connections no worker serves.
    pub fn idle(&self) -> usize {
        self.acceptor.idle()
    }
}

/// Closes the connections of listeners that are not called any more, each once what was written has
/// been sent. It waits for peers for so many milliseconds at most.
pub fn drain<R: Clock + Eprint + Copy>(doors: &mut [RealDoor<R>], millis: u64) {
    let Some(first) = doors.first_mut() else {
        return;
    };
    let end = first.acceptor.time().saturating_add(millis);
    leave(doors);
    for _ in 0..MOST_TURNS {
        if !drain_in_turn(doors, end) {
            return;
        }
    }
}

/// No connection is served any more.
fn leave<R: Clock + Eprint + Copy>(doors: &mut [RealDoor<R>]) {
    for door in doors.iter_mut() {
        door.acceptor.leave();
    }
}

/// Lets each listener send for a moment, so that none waits for the peers of another. It returns
/// whether one has more to send.
fn drain_in_turn<R: Clock + Eprint + Copy>(doors: &mut [RealDoor<R>], end: u64) -> bool {
    let mut owes = false;
    for door in doors.iter_mut() {
        owes |= door.acceptor.drain(end);
    }
    owes
}

impl<R: Clock + Eprint + Copy> Door for RealDoor<R> {
    type Conn = RealConn<TcpStream, R>;

    ghost seen = { door_view };

    fn accept(&mut self) -> Accepted<RealConn<TcpStream, R>> {
        match self.acceptor.next() {
            Ok(Some(wire)) => {
                self.last = Some(DoorAnswer::Given);
                Accepted::Given(RealConn::new(wire, self.acceptor.clock()))
            }
            Ok(None) => {
                self.last = Some(DoorAnswer::Idle);
                Accepted::Idle
            }
            Err(error) => {
                self.last = Some(DoorAnswer::Failed);
                self.faults = self.faults.saturating_add(1);
                self.failure = Some(error.kind());
                Accepted::Failed
            }
        }
    }

    fn finish(&mut self, conn: RealConn<TcpStream, R>, report: Report) {
        self.acceptor.take_back(conn.into_wire(), report.end);
    }
}
