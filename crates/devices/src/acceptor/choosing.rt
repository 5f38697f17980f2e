//! Which connection a worker serves next, and the events for which a listener waits.
use crate::acceptor::admitting::Admitted;
use crate::acceptor::{Acceptor, MOST_EVENTS};
use crate::idle_connections::has_listener;
use crate::now::thread_micros;
use crate::wire::Wire;
use std::boxed::Box;
use std::io;
use std::io::{Eprint, ErrorKind};
use std::net::TcpStream;
use std::time::{Clock, Duration};
use stretches::{GRACE_MILLIS, Queue, Waiting};

/// How often events are polled while connections can be served, in microseconds.
const POLL_MICROS: u64 = 250;

/// How often expired connections are closed, in milliseconds.
const SWEEP_MILLIS: u64 = 250;

/// The most passes of the loop before a listener returns that no connection waits.
const MOST_LOOKS: u32 = 65_536;

impl<R: Clock + Eprint + Copy> Acceptor<R> {
    /// The next connection that can be served, if one comes before this time in milliseconds. The
    /// loop polls between two turns once in 250 microseconds, even while others can be served.
    pub(super) fn coming(&mut self, end: u64) -> io::Result<Option<Box<Wire<TcpStream>>>> {
        for _ in 0..MOST_LOOKS {
            if self.time >= end {
                break;
            }
            if self.micros.saturating_sub(self.polled) >= POLL_MICROS {
                self.wait(0)?;
            }
            match self.choose()? {
                Admitted::Ready(wire) => return Ok(Some(wire)),
                Admitted::None => self.look(end, false)?,
                Admitted::InVain => self.look(end, true)?,
            }
        }
        Ok(None)
    }

    /// A connection of the queue that is served next.
    fn choose(&mut self) -> io::Result<Admitted> {
        let waiting = self.waiting();
        let Some(queue) = self.shared.next(waiting) else {
            return Ok(Admitted::None);
        };
        self.shared.serve(queue, waiting);
        self.queue = queue;
        if queue == Queue::Fresh {
            return self.admit_new();
        }
        match self.idle.take_ready(queue) {
            Some(wire) => Ok(Admitted::Ready(wire)),
            None => Ok(Admitted::None),
        }
    }

    /// In which queues a connection may wait. Events are handled until that is known.
    fn waiting(&mut self) -> Waiting {
        let own = self.idle.count();
        self.shares.report(own);
        let fresh = self.takes();
        self.handle_some(fresh);
        self.idle.waiting(fresh)
    }

    /// Handles events until a quick connection waits. Where new or costly ones wait, all events are
    /// handled, since the order of the queues rests on who waits.
    fn handle_some(&mut self, fresh: bool) {
        for _ in 0..MOST_EVENTS {
            let waiting = self.idle.waiting(fresh);
            let is_enough = waiting.light && !waiting.fresh && !waiting.heavy;
            if is_enough || !self.handle_next() {
                return;
            }
        }
    }

    /// Handles all events that are left.
    fn handle_all(&mut self) {
        for _ in 0..MOST_EVENTS {
            if !self.handle_next() {
                return;
            }
        }
    }

    /// Handles the first event that is left, and returns whether there was one.
    fn handle_next(&mut self) -> bool {
        let Some(event) = self.events.iter().as_slice().get(self.next_event).copied() else {
            return false;
        };
        self.next_event = self.next_event.saturating_add(1);
        let now = self.now();
        self.idle.stir(&event, &mut self.room, now);
        true
    }

    /// Polls, and waits for events if nothing else can be done. After a failed accept it does not
    /// retry before an event.
    fn look(&mut self, end: u64, in_vain: bool) -> io::Result<()> {
        self.handle_all();
        let left = end.saturating_sub(self.time);
        let waiting = self.idle.waiting(false);
        let patience = if waiting.light || waiting.heavy {
            0
        } else if !self.comes || in_vain {
            left
        } else if self.takes() {
            0
        } else {
            left.min(GRACE_MILLIS)
        };
        self.wait(patience)
    }

    /// Handles the events that are left, and waits for others for so many milliseconds at most, or
    /// until a signal.
    pub(super) fn wait(&mut self, millis: u64) -> io::Result<()> {
        self.handle_all();
        self.poll_events(millis)?;
        self.tick();
        self.polled = self.micros;
        self.read_ran();
        if !self.comes && has_listener(&self.events) {
            self.comes = true;
            self.came = self.time;
        }
        if self.time.saturating_sub(self.swept) >= SWEEP_MILLIS {
            self.sweep();
        }
        Ok(())
    }

    /// Closes the connections that rested for too long, after the events that are left.
    fn sweep(&mut self) {
        self.handle_all();
        self.swept = self.time;
        let now = self.now();
        self.idle.sweep(&mut self.room, now);
    }

    /// Waits for events for so many milliseconds at most, or until a signal.
    fn poll_events(&mut self, millis: u64) -> io::Result<()> {
        self.next_event = 0;
        let wait = Duration::from_millis(millis);
        match self.poll.poll(&mut self.events, Some(wait)) {
            Err(error) if error.kind() != ErrorKind::Interrupted => Err(error),
            _ => Ok(()),
        }
    }

    /// Reads the processor time of the thread, once a millisecond at most.
    fn read_ran(&mut self) {
        if self.time != self.ran_read {
            self.ran_read = self.time;
            self.ran = thread_micros().unwrap_or(self.ran);
        }
    }
}
