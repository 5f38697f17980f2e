//! The event loop of a listener over its own connections.
use crate::idle_connections::{IdleConnections, LISTENS};
use crate::incoming::PIECE;
use crate::listening::{Listening, end_listening};
use crate::now::{Now, micros, thread_micros};
use crate::shares::{Counter, Shares};
use crate::wire::{Readiness, Wire};
use mio::unix::SourceFd;
use mio::{Events, Interest, Poll};
use std::alloc::Global;
use std::boxed::Box;
use std::io;
use std::io::{Eprint, Error, ErrorKind};
use std::net::{Net, SocketAddr, TcpStream};
use std::os::fd::AsRawFd;
use std::sync::Arc;
use std::time::{Clock, Duration};
use stretches::{
    FailureWindow, Queue, SHORT_TURN_MICROS, Shared, WorkerTurn, is_long_turn, turn_limit,
};
use td_base::End;

mod admitting;
mod choosing;

/// After how many milliseconds at most a listener returns that no connection waits. It does so as
/// often if connections never cease.
pub const IDLE_ANSWER_MILLIS: u64 = 100;

/// How many events are taken at a time.
const MOST_EVENTS: usize = 1_024;

/// For how many milliseconds a listener pauses after a failure.
const FAILURE_PAUSE_MILLIS: u64 = 100;

/// For how many milliseconds a listener sends at the end before the next has its turn.
const DRAIN_MILLIS: u64 = 2;

/// The state of a listener: its socket, the connections that no worker serves, and their events.
#[derive(Drop)]
pub struct Acceptor<R> {
    clock: R,
    alloc: Global,
    listening: Listening,
    poll: Poll,
    /// The events of the last poll, and the index of the first that is not handled.
    events: Events<Global>,
    next_event: usize,
    idle: IdleConnections,
    /// Room for a received piece, shared by all connections: clearing it for each would cost each
    /// request.
    room: [u8; PIECE],
    most: usize,
    shares: Shares,
    /// Whether a connection may wait at the socket, and since when.
    comes: bool,
    came: u64,
    /// Whether the last accept found no descriptor.
    short: bool,
    /// What was spent on each queue in microseconds, and which one is served.
    shared: Shared,
    queue: Queue,
    /// The processor time of the thread in microseconds, and when it was read.
    ran: u64,
    ran_read: u64,
    /// The recent failures, and the one that broke the listener.
    failures: FailureWindow,
    broken: Option<ErrorKind>,
    /// The time by the clock and the time of the last poll, in microseconds. Then in milliseconds
    /// the time by the clock, and those of the last sweep and of the last return that no connection
    /// waits.
    micros: u64,
    polled: u64,
    time: u64,
    swept: u64,
    idled: u64,
    /// The number of the last turn.
    turns: u64,
}

/// A poll that waits for the connections of a socket.
fn poll_of<N: Net>(net: &N, listening: &Listening) -> io::Result<Poll> {
    let poll = Poll::new(net)?;
    let descriptor = listening.as_raw_fd();
    poll.registry()
        .register(&mut SourceFd(&descriptor), LISTENS, Interest::READABLE)?;
    Ok(poll)
}

impl<R: Clock + Eprint + Copy> Acceptor<R> {
    /// The state of one of so many listeners at a socket, each with at most so many connections.
    pub fn new<N: Net>(
        net: &N,
        clock: R,
        alloc: Global,
        listening: &Listening,
        all: &Counter,
        doors: u32,
        most: usize,
    ) -> io::Result<Acceptor<R>>
    where
        R: Drop,
    {
        let listening = Arc::try_clone(listening)?;
        let shares = Shares::new(Arc::try_clone(all)?, doors);
        let events = Events::with_capacity(alloc, MOST_EVENTS)?;
        let poll = poll_of(net, &listening)?;
        Ok(Acceptor {
            clock,
            alloc,
            listening,
            poll,
            events,
            next_event: 0,
            idle: IdleConnections::new(alloc),
            room: [0; PIECE],
            most,
            shares,
            comes: true,
            came: 0,
            short: false,
            shared: Shared::NONE,
            queue: Queue::Fresh,
            ran: 0,
            ran_read: 0,
            failures: FailureWindow::NONE,
            broken: None,
            micros: 0,
            polled: 0,
            time: 0,
            swept: 0,
            idled: 0,
            turns: 0,
        })
    }

    /// The address of the socket.
    pub fn local_addr(&self) -> io::Result<SocketAddr> {
        self.listening.local_addr()
    }

    /// How many connections no worker serves.
    pub fn idle(&self) -> usize {
        self.idle.count()
    }

    /// The time by the clock, in milliseconds.
    pub fn time(&mut self) -> u64 {
        self.tick();
        self.time
    }

    /// The next connection that can be served, if one comes within 100 ms. After a passing failure
    /// it pauses; a broken listener fails each time.
    pub fn next(&mut self) -> io::Result<Option<Box<Wire<TcpStream>>>> {
        if let Some(kind) = self.broken {
            return Err(Error::from(kind));
        }
        match self.coming(self.idled.saturating_add(IDLE_ANSWER_MILLIS)) {
            Ok(Some(mut wire)) => {
                let limit = self.limit(wire.queue());
                let turn = WorkerTurn::new(self.micros, limit);
                wire.begin(self.idle.allowance(), turn);
                Ok(Some(wire))
            }
            Ok(None) => {
                self.idled = self.time;
                Ok(None)
            }
            Err(error) => self.fail(error),
        }
    }

    /// Takes back a connection after a stretch that ended so.
    pub fn take_back(&mut self, wire: Box<Wire<TcpStream>>, end: End) {
        let mut wire = wire;
        self.tick();
        let now = self.now();
        let cost = self.cost(wire.turn());
        self.shared.charge(self.queue, cost);
        let unfinished = wire.is_unfinished();
        wire.weigh(is_long_turn(cost, unfinished));
        let readiness = wire.readiness_after(&mut self.room, end, now);
        self.keep(wire, readiness, now);
    }

    /// Keeps a connection that is not served. If there are too many, another is evicted for it, or
    /// it is closed itself.
    fn keep(&mut self, wire: Box<Wire<TcpStream>>, readiness: Readiness, now: Now) {
        self.idle
            .keep(self.poll.registry(), wire, readiness, self.most, now);
    }

    /// For how many microseconds a connection is served that would wait in this queue. A new one
    /// with quick requests has a first turn. Each event that is left may be another that waits.
    fn limit(&self, queue: Queue) -> u64 {
        let left = self.events.iter().len().saturating_sub(self.next_event);
        let left = u64::try_from(left).unwrap_or(u64::MAX);
        let others = self.idle.waiting_in(queue).saturating_add(left);
        match queue {
            Queue::Heavy => turn_limit(queue, others),
            Queue::Fresh | Queue::Light => turn_limit(self.queue, others),
        }
    }

    /// What a turn cost, in microseconds. The thread's own clock is read only for a long one.
    fn cost(&self, turn: WorkerTurn) -> u64 {
        let whole = turn.cost(self.micros, u64::MAX);
        if whole < SHORT_TURN_MICROS {
            return whole;
        }
        match thread_micros() {
            Some(ran) => turn.cost(self.micros, ran.saturating_sub(self.ran)),
            None => whole,
        }
    }

    /// Pauses after a failure. If too much failed recently, the listener is broken, and its
    /// connections are closed.
    fn fail(&mut self, error: Error) -> io::Result<Option<Box<Wire<TcpStream>>>> {
        self.tick();
        self.failures.fail(self.time);
        if !self.failures.is_broken() {
            self.clock
                .sleep(Duration::from_millis(FAILURE_PAUSE_MILLIS));
            self.tick();
            self.idled = self.time;
            return Ok(None);
        }
        self.give_up(error.kind());
        Err(error)
    }

    /// The listener is broken. If it was the last one, peers are refused from now on, and a line on
    /// standard error says so.
    fn give_up(&mut self, kind: ErrorKind) {
        self.broken = Some(kind);
        let now = self.now();
        self.idle.leave(&mut self.room, now);
        if self.shares.breaks() {
            end_listening(&self.listening);
            let clock = self.clock;
            let _ = eprintln!(clock;
                "tzdistd: no worker is left: cannot accept connections: {kind}"
            );
        }
    }

    /// The clock that a connection reads while it is served.
    pub fn clock(&self) -> R {
        self.clock
    }

    /// Reads the clock. If that fails, the time stands still.
    fn tick(&mut self) {
        if let Ok(time) = self.clock.monotonic() {
            self.micros = self.micros.max(micros(time));
            self.time = self.micros / 1_000;
        }
    }

    /// The time, with the number of the next turn.
    fn now(&mut self) -> Now {
        self.turns = self.turns.saturating_add(1);
        Now {
            millis: self.time,
            turn: self.turns,
        }
    }

    /// No connection is served any more: each is closed once what was written has been sent.
    pub fn leave(&mut self) {
        self.tick();
        let now = self.now();
        self.idle.leave(&mut self.room, now);
    }

    /// Sends what was written and not yet taken, for a moment, before this time of its clock. It
    /// returns whether more is left.
    pub fn drain(&mut self, end: u64) -> bool {
        self.tick();
        if self.time >= end || !self.idle.owes() {
            return false;
        }
        let left = end.saturating_sub(self.time);
        self.wait(left.min(DRAIN_MILLIS)).is_ok() && self.idle.owes()
    }
}
