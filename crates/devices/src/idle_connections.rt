//! The connections of a listener that no worker serves.
ghost use Rattle.std.specs.Prelude.{◌<◌, length};

use crate::now::Now;
use crate::outgoing::MOST_UNSENT;
use crate::wire::{Readiness, Wire};
use mio::event::Event;
use mio::unix::SourceFd;
use mio::{Events, Interest, Registry, Token};
use slab::Slab;
use std::alloc::Global;
use std::boxed::Box;
use std::collections::VecDeque;
use std::net::TcpStream;
use stretches::{Queue, Timeouts, Waiting};

/// The most bytes of memory that the connections of a listener hold, the one that is served
/// included.
pub const MOST_HELD_OF_ALL: usize = 67_108_864;

/// The most bytes that those hold that are not served. It leaves room for any reply.
const MOST_HELD_AT_REST: usize = MOST_HELD_OF_ALL - MOST_UNSENT;

/// How many keys of closed connections are taken out of a queue at a time.
const MOST_STALE: u32 = 1_024;

/// The token of the listening socket. Those of connections are one more than their keys.
pub const LISTENS: Token = Token(0);

/// Whether one of the events is that of the listening socket.
pub fn has_listener(events: &Events<Global>) -> bool {
    events.iter().any(|event| event.token() == LISTENS)
}

/// The connections that no worker serves. Those that can be served wait in two queues, first come
/// first served. The timeouts say what each waits for, and since when. A key in a queue counts only
/// while its connection says that it waits there.
#[derive(Drop)]
pub struct IdleConnections {
    wires: Slab<Box<Wire<TcpStream>>>,
    timeouts: Timeouts,
    light: VecDeque<usize>,
    heavy: VecDeque<usize>,
    /// How many bytes of replies they have not sent, and how much memory they hold.
    unsent: usize,
    held: usize,
}

impl IdleConnections {
    /// No connections. It takes no memory, and grows by the allocator.
    pub fn new(alloc: Global) -> IdleConnections {
        IdleConnections {
            wires: Slab::new(alloc),
            timeouts: Timeouts::new(alloc),
            light: VecDeque::new(alloc),
            heavy: VecDeque::new(alloc),
            unsent: 0,
            held: 0,
        }
    }

    /// How many there are.
    pub fn count(&self) -> usize {
        self.wires.len()
    }

    /// In which queues a connection may wait.
    pub fn waiting(&self, fresh: bool) -> Waiting {
        Waiting {
            fresh,
            light: !self.light.is_empty(),
            heavy: !self.heavy.is_empty(),
        }
    }

    /// How many keys are in the queue of such connections.
    pub fn waiting_in(&self, queue: Queue) -> u64 {
        let count = match queue {
            Queue::Heavy => self.heavy.len(),
            Queue::Fresh | Queue::Light => self.light.len(),
        };
        u64::try_from(count).unwrap_or(u64::MAX)
    }

    /// How many keys are in the queue of costly requests.
    pub fn heavy(&self) -> usize {
        self.heavy.len()
    }

    /// How many bytes of a reply the connection that is served may hold.
    pub fn allowance(&self) -> usize {
        MOST_HELD_OF_ALL.saturating_sub(self.held)
    }

    /// Whether a part of a reply is not sent yet.
    pub fn owes(&self) -> bool {
        self.unsent > 0
    }

    /// Keeps a connection that is not served, and registers for its events. Where there are so many
    /// already, another is evicted for it. If memory or room runs out, it is closed.
    pub fn keep(
        &mut self,
        registry: &Registry,
        wire: Box<Wire<TcpStream>>,
        readiness: Readiness,
        most: usize,
        now: Now,
    ) {
        if readiness == Readiness::Gone || !self.has_room(most, now) {
            return;
        }
        let known = wire.key;
        if let Some(key) = self.hold(wire) {
            self.settle(registry, key, known, readiness);
            self.make_memory(now);
        }
    }

    /// Makes sure that there are fewer than so many, and returns whether that is so.
    fn has_room(&mut self, most: usize, now: Now) -> bool {
        self.count() < most || self.make_room(now)
    }

    /// Holds a connection, and returns its key. Out of memory it is closed.
    fn hold(&mut self, wire: Box<Wire<TcpStream>>) -> Option<usize> {
        let (unsent, held) = (wire.unsent(), wire.room());
        let key = self.wires.insert(wire).ok()?;
        self.unsent = self.unsent.saturating_add(unsent);
        self.held = self.held.saturating_add(held);
        Some(key)
    }

    /// Registers for the events of the connection at a key, unless its events come under that key
    /// already, and puts it where it belongs.
    fn settle(
        &mut self,
        registry: &Registry,
        key: usize,
        known: Option<usize>,
        readiness: Readiness,
    ) {
        if known == Some(key) || self.ask_for(registry, key, known.is_some()) {
            self.place(key, readiness);
        } else {
            self.discard(key);
        }
    }

    /// Registers for the events of a connection under its key.
    fn ask_for(&mut self, registry: &Registry, key: usize, again: bool) -> bool {
        let Some(wire) = self.wires.get_mut(key) else {
            return false;
        };
        wire.key = Some(key);
        let descriptor = wire.descriptor();
        let mut source = SourceFd(&descriptor);
        let token = Token(key.saturating_add(1));
        let both = Interest::READABLE | Interest::WRITABLE;
        if again {
            registry.reregister(&mut source, token, both).is_ok()
        } else {
            registry.register(&mut source, token, both).is_ok()
        }
    }

    /// Puts the connection at a key where it belongs.
    fn place(&mut self, key: usize, readiness: Readiness) {
        match readiness {
            Readiness::Ready => self.line_up(key),
            Readiness::Waits => self.set_timeout(key),
            Readiness::Gone => self.discard(key),
        }
    }

    /// Enters into the timeouts what the connection at a key waits for.
    fn set_timeout(&mut self, key: usize) {
        let Some(wire) = self.wires.get(key) else {
            return;
        };
        let life = wire.life();
        if self.timeouts.set(key, life).is_err() {
            self.discard(key);
        }
    }

    /// The connection at a key can be served.
    fn line_up(&mut self, key: usize) {
        let Some(wire) = self.wires.get_mut(key) else {
            return;
        };
        wire.queued = true;
        let lined_up = match wire.queue() {
            Queue::Heavy => self.heavy.push_back(key).is_ok(),
            Queue::Fresh | Queue::Light => self.light.push_back(key).is_ok(),
        };
        if lined_up {
            self.set_timeout(key);
        } else {
            self.discard(key);
        }
    }

    /// Handles an event of a connection. That of the listening socket is none. What is received
    /// comes into this room first.
    pub fn stir(&mut self, event: &Event, room: &mut [u8], now: Now)
        requires { 0 < length room.old }
    {
        let Token(place) = event.token();
        let Some(key) = place.checked_sub(1) else {
            return;
        };
        if let Some(wire) = self.wires.get_mut(key) {
            wire.wake(event.is_read_closed() || event.is_error());
        }
        self.advance(key, room, now);
    }

    /// Does what can be done for a connection that waits in no queue.
    fn advance(&mut self, key: usize, room: &mut [u8], now: Now)
        requires { 0 < length room.old }
    {
        let Some(wire) = self.wires.get_mut(key) else {
            return;
        };
        if wire.queued {
            return;
        }
        let (unsent, held) = (wire.unsent(), wire.room());
        let readiness = wire.advance(room, now);
        let (unsent_after, held_after) = (wire.unsent(), wire.room());
        self.unsent = self
            .unsent
            .saturating_sub(unsent)
            .saturating_add(unsent_after);
        self.held = self.held.saturating_sub(held).saturating_add(held_after);
        self.place(key, readiness);
        self.make_memory(now);
    }

    /// The connection that has waited in a queue for the longest time.
    pub fn take_ready(&mut self, queue: Queue) -> Option<Box<Wire<TcpStream>>> {
        for _ in 0..MOST_STALE {
            let key = match queue {
                Queue::Heavy => self.heavy.pop_front()?,
                Queue::Fresh | Queue::Light => self.light.pop_front()?,
            };
            if self.is_queued(key) {
                return self.remove(key);
            }
        }
        None
    }

    /// Whether the connection at a key waits in a queue.
    fn is_queued(&self, key: usize) -> bool {
        match self.wires.get(key) {
            Some(wire) => wire.queued,
            None => false,
        }
    }

    /// Takes the connection at a key out.
    fn remove(&mut self, key: usize) -> Option<Box<Wire<TcpStream>>> {
        self.timeouts.clear(key);
        let wire = self.wires.try_remove(key)?;
        self.unsent = self.unsent.saturating_sub(wire.unsent());
        self.held = self.held.saturating_sub(wire.room());
        Some(wire)
    }

    /// Closes the connection at a key.
    fn discard(&mut self, key: usize) {
        let _ = self.remove(key);
    }

    /// Closes the connection that is the first to yield to a new one, and returns whether one did.
    pub fn make_room(&mut self, now: Now) -> bool {
        match self.timeouts.first_to_yield(now.millis) {
            Some(key) => {
                self.discard(key);
                true
            }
            None => false,
        }
    }

    /// While all hold too much, closes the one that has held most memory for the longest time.
    fn make_memory(&mut self, now: Now) {
        for _ in 0..self.wires.len() {
            if self.held <= MOST_HELD_AT_REST {
                return;
            }
            match self.timeouts.heaviest(now.millis) {
                Some(key) => self.discard(key),
                None => return,
            }
        }
    }

    /// No connection is served any more: each is closed once what was written has been sent.
    pub fn leave(&mut self, room: &mut [u8], now: Now)
        requires { 0 < length room.old }
    {
        for key in 0..self.wires.capacity() {
            if let Some(wire) = self.wires.get_mut(key) {
                wire.leave();
            }
            self.advance(key, room, now);
        }
    }

    /// Closes the connections that rested for too long.
    pub fn sweep(&mut self, room: &mut [u8], now: Now)
        requires { 0 < length room.old }
    {
        let mut from = 0;
        for _ in 0..self.timeouts.len() {
            match self.timeouts.next_over(from, now.millis) {
                Some(key) => {
                    self.give_up(key, room, now);
                    from = key.saturating_add(1);
                }
                None => return,
            }
        }
    }

    /// Closes a connection that makes no progress now. It is tried once more, since the system
    /// reports room in a socket only once much of it is free.
    fn give_up(&mut self, key: usize, room: &mut [u8], now: Now)
        requires { 0 < length room.old }
    {
        self.advance(key, room, now);
        let is_over = match self.wires.get(key) {
            Some(wire) => !wire.queued && wire.life().is_over(now.millis),
            None => false,
        };
        if is_over {
            self.discard(key);
        }
    }
}
