//! New connections: accepted at the socket, and served at once or put into a queue.
use crate::acceptor::Acceptor;
use crate::idle_connections::LISTENS;
use crate::listening::next_stream;
use crate::passing::{is_passing, is_short};
use crate::wire::{Readiness, Wire};
use mio::Interest;
use mio::unix::SourceFd;
use std::boxed::Box;
use std::io;
use std::io::{Eprint, ErrorKind};
use std::net::TcpStream;
use std::os::fd::AsRawFd;
use std::time::Clock;
use stretches::{Queue, WorkerTurn};

/// How many connections are accepted before others have their turn.
const MOST_ACCEPTED: u32 = 16;

/// What accepting came to.
pub(super) enum Admitted {
    /// A connection whose first request has come.
    Ready(Box<Wire<TcpStream>>),
    /// None can be served yet.
    None,
    /// An accept failed, and the next may fail too: retrying at once is useless.
    InVain,
}

impl<R: Clock + Eprint + Copy> Acceptor<R> {
    /// Accepts connections. What it costs is charged to new connections in every case.
    pub(super) fn admit_new(&mut self) -> io::Result<Admitted> {
        let turn = WorkerTurn::new(self.micros, 0);
        let admitted = self.admit_some()?;
        self.tick();
        let cost = self.cost(turn);
        self.shared.charge(Queue::Fresh, cost);
        Ok(admitted)
    }

    /// Accepts connections until one can be served, or none is to be accepted.
    fn admit_some(&mut self) -> io::Result<Admitted> {
        for _ in 0..MOST_ACCEPTED {
            self.shares.report(self.idle.count());
            if !self.takes() {
                break;
            }
            match self.admit() {
                Ok(None) => {}
                Ok(Some(wire)) => return Ok(Admitted::Ready(wire)),
                Err(error) if is_passing(&error) => return Ok(Admitted::InVain),
                Err(error) => return Err(error),
            }
        }
        Ok(Admitted::None)
    }

    /// Whether this listener accepts a connection that may wait.
    pub(super) fn takes(&self) -> bool {
        let waited = self.time.saturating_sub(self.came);
        self.comes && self.shares.takes(waited)
    }

    /// Accepts a connection, if one waits. It is returned if it can be served at once.
    fn admit(&mut self) -> io::Result<Option<Box<Wire<TcpStream>>>> {
        match next_stream(&self.listening) {
            Ok(stream) => {
                self.short = false;
                Ok(self.receive(stream))
            }
            Err(error) => {
                if error.kind() == ErrorKind::WouldBlock {
                    self.comes = false;
                }
                if is_short(&error) && self.makes_room() {
                    return Ok(None);
                }
                Err(error)
            }
        }
    }

    /// Takes a new connection. It is returned if its first request has come and is a quick one. A
    /// costly one waits in its queue, while that has room, so that quick ones overtake it. Out of
    /// memory it is closed.
    fn receive(&mut self, stream: TcpStream) -> Option<Box<Wire<TcpStream>>> {
        let now = self.now();
        let mut wire = Box::new(self.alloc, Wire::new(self.alloc, stream, now)).ok()?;
        let readiness = wire.advance(&mut self.room, now);
        let is_quick = wire.queue() != Queue::Heavy;
        if readiness == Readiness::Ready && (is_quick || self.idle.heavy() >= self.most / 2) {
            return Some(wire);
        }
        self.keep(wire, readiness, now);
        None
    }

    /// Makes room after an accept found no descriptor, and returns whether it did. Such an accept
    /// fails even if no connection waits. So the socket is first polled again, and only its event
    /// evicts another connection.
    fn makes_room(&mut self) -> bool {
        if self.short {
            self.short = false;
            let now = self.now();
            return self.idle.make_room(now);
        }
        self.short = true;
        let descriptor = self.listening.as_raw_fd();
        self.comes = self
            .poll
            .registry()
            .reregister(&mut SourceFd(&descriptor), LISTENS, Interest::READABLE)
            .is_err();
        false
    }
}
