ghost use Rattle.std.specs.Prelude.{◌≡◌, ◌<◌, length};
ghost use Rattle.std.specs.Io.KnownBytes.{Keeps};
ghost use Rattle.devices.specs.Flows.{is_open, written};
ghost use Rattle.devices.specs.Sockets.{Holds, Sends};

use crate::socket::{Sent, send};
use crate::unsent::Unsent;
use std::alloc::Global;
use std::io::Write;

/// The most bytes of one connection that are held because its peer has not taken them.
pub const MOST_UNSENT: usize = 8_388_608;

/// After how many bytes of replies a stretch ends, so that others have their turn.
pub const STRETCH_BYTES: usize = 1_048_576;

/// The bytes that were written and that the stream has not taken yet.
#[derive(Drop)]
pub struct Outgoing {
    unsent: Unsent,
    /// How many bytes were written in this stretch, and how many may be held in it.
    count: usize,
    allowance: usize,
}

impl Outgoing {
    /// Nothing was written yet, and nothing may be held.
    pub fn new(alloc: Global) -> Outgoing {
        Outgoing {
            unsent: Unsent::new(alloc),
            count: 0,
            allowance: 0,
        }
    }

    /// Begins a stretch, in which so many bytes may be held.
    pub fn begin(&mut self, allowance: usize)
        ensures { self.new.unsent ≡ self.old.unsent }
    {
        self.count = 0;
        self.allowance = allowance.min(MOST_UNSENT);
    }

    /// How many bytes are held.
    pub fn len(&self) -> usize
        ensures { result ≡ length self.now.unsent.rest }
    {
        self.unsent.as_slice().len()
    }

    /// How many bytes of memory are taken by what is held.
    pub fn room(&self) -> usize {
        self.unsent.room()
    }

    /// Whether all that was written has been sent, and the stretch may go on.
    pub fn is_open(&self) -> bool
        ensures { result ≡ is_open self.now }
    {
        self.len() == 0 && self.count < STRETCH_BYTES
    }

    /// Frees memory that is not needed.
    pub fn let_go(&mut self, alloc: Global)
        ensures { self.new.unsent.rest ≡ self.old.unsent.rest }
    {
        if self.unsent.as_slice().is_empty() {
            self.unsent = Unsent::new(alloc);
        }
    }

    /// Sends the piece, or holds it if the stream does not take it at once. It fails if the stream
    /// does, or if no more may be held.
    pub fn write<W: Write>(&mut self, stream: &mut W, piece: &[u8]) -> Sent
        requires { 0 < length piece.now }
        ensures { Sends (written self.old (W.contents stream.old))
            (written self.new (W.contents stream.new)) result piece.now }
    {
        if !self.unsent.as_slice().is_empty() {
            return self.hold(piece);
        }
        match send(stream, piece) {
            Sent::Bytes(count) => {
                self.count = self.count.saturating_add(count);
                Sent::Bytes(count)
            }
            Sent::Nothing => self.hold(piece),
            Sent::Broken => Sent::Broken,
        }
    }

    /// Holds the piece, if it may be held and memory suffices.
    fn hold(&mut self, piece: &[u8]) -> Sent
        requires { 0 < length piece.now }
        ensures { Holds self.old.unsent.rest self.new.unsent.rest result piece.now }
    {
        let len = self.len().saturating_add(piece.len());
        if len > self.allowance || self.unsent.append(piece).is_err() {
            return Sent::Broken;
        }
        self.count = self.count.saturating_add(piece.len());
        Sent::Bytes(piece.len())
    }

    /// Sends what is held, as much as the stream takes.
    pub fn flush<W: Write>(&mut self, stream: &mut W) -> Sent
        requires { 0 < length self.old.unsent.rest }
        ensures { Keeps (written self.old (W.contents stream.old))
            (written self.new (W.contents stream.new)) }
    {
        match send(stream, self.unsent.as_slice()) {
            Sent::Bytes(count) => {
                self.unsent.take(count);
                Sent::Bytes(count)
            }
            other => other,
        }
    }
}
