//! What a TCP connection does between its turns: it sends, receives, and closes.
ghost use Rattle.std.specs.Prelude.{◌<◌, length};

use crate::incoming::Incoming;
use crate::now::Now;
use crate::socket::{Received, receive};
use crate::wire::{LINGER_BYTES, MOST_PIECES, Readiness, Stage, Wire};
use std::net::{Shutdown, TcpStream};
use std::os::fd::{AsRawFd, RawFd};
use stretches::Fate;
use td_base::End;

impl Wire<TcpStream> {
    /// The descriptor of its stream.
    pub fn descriptor(&self) -> RawFd {
        self.stream.as_raw_fd()
    }

    /// Ends a stretch that ended so, and does all that can be done for it without waiting.
    pub fn readiness_after(&mut self, room: &mut [u8], end: End, now: Now) -> Readiness
        requires { 0 < length room.old }
    {
        if self.finish(end, now) == Fate::Breaks {
            Readiness::Gone
        } else {
            self.advance(room, now)
        }
    }

    /// Does all that can be done for it without waiting. What was written is sent first, and then
    /// bytes are received, into this room, until it can be served.
    pub fn advance(&mut self, room: &mut [u8], now: Now) -> Readiness
        requires { 0 < length room.old }
    {
        if self.unsent() > 0 {
            if !self.flush(now) {
                return Readiness::Gone;
            }
            if self.unsent() > 0 {
                return Readiness::Waits;
            }
        }
        match self.stage {
            Stage::Open => self.listen(room, now),
            Stage::Leaving => self.shut(room, now.millis),
            Stage::Shut(thrown) => self.linger(room, thrown),
        }
    }

    /// Receives until it can be served.
    fn listen(&mut self, room: &mut [u8], now: Now) -> Readiness
        requires { 0 < length room.old }
    {
        self.hear(room, now.millis);
        if self.incoming.is_ready() {
            self.classify();
            Readiness::Ready
        } else if self.incoming.is_over() {
            Readiness::Gone
        } else {
            self.settle(now);
            Readiness::Waits
        }
    }

    /// Ends the sending side, and waits for the peer to end its own. Closing a socket with unread
    /// bytes resets its connection, and the peer may lose the end of its last reply.
    fn shut(&mut self, room: &mut [u8], millis: u64) -> Readiness
        requires { 0 < length room.old }
    {
        if self.stream.shutdown(Shutdown::Write).is_err() || self.incoming.is_over() {
            return Readiness::Gone;
        }
        self.moved = millis;
        self.stage = Stage::Shut(0);
        self.incoming = Incoming::new(self.alloc);
        self.linger(room, 0)
    }

    /// Throws away what still comes.
    fn linger(&mut self, room: &mut [u8], thrown: usize) -> Readiness
        requires { 0 < length room.old }
    {
        let mut thrown = thrown;
        for _ in 0..MOST_PIECES {
            match receive(&mut self.stream, room) {
                Received::Bytes(count) => thrown = thrown.saturating_add(count),
                Received::Nothing => break,
                Received::End | Received::Broken => return Readiness::Gone,
            }
            if thrown > LINGER_BYTES {
                return Readiness::Gone;
            }
        }
        self.stage = Stage::Shut(thrown);
        Readiness::Waits
    }
}
