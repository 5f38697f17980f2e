ghost use Rattle.std.specs.Prelude.{◌≡◌, ◌<◌, ◌≤◌, ◌⊎◌, ◌++◌, length, take, IfSome, None};
ghost use Rattle.std.specs.Prelude.{◌↔◌, IsTrue, true, false};
ghost use Rattle.std.specs.Io.KnownBytes.{IsAtEnd, Keeps};
ghost use Rattle.devices.specs.Flows.{Gives, GivesHeld, to_give};
ghost use Rattle.stretches.specs.Costs.{is_costly};
ghost use Rattle.stretches.specs.Fronts.{front_length};

use crate::socket::{Received, receive};
use std::alloc::Global;
use std::io::Read;
use stretches::Intake;

/// How many bytes are received at a time: more than most heads have.
pub const PIECE: usize = 4_096;

/// How many pieces are received before other connections have their turn.
const MOST_PIECES: u32 = 16;

/// What a read in a stretch gave.
#[derive(Clone, Copy, PartialEq, Eq)]
pub enum Given {
    /// So many bytes, at least one.
    Bytes(usize),
    /// No further head is whole, which ends the stretch.
    End,
    /// The stream failed, or memory ran out for what it gave.
    Broken,
}

/// The bytes that a stream gave and that were not handed on, and what is known of those to come.
#[derive(Drop)]
pub struct Incoming {
    intake: Intake,
    /// The most bytes that its memory had to hold.
    peak: usize,
    /// Whether the last call received all that had come.
    drained: bool,
    /// Whether its peer is known to have ended its side, so that the end is still to be received.
    ending: bool,
    /// Whether the end was received.
    ended: bool,
    broken: bool,
}

impl Incoming {
    /// Nothing came yet.
    pub fn new(alloc: Global) -> Incoming {
        Incoming {
            intake: Intake::new(alloc),
            peak: 0,
            drained: false,
            ending: false,
            ended: false,
            broken: false,
        }
    }

    /// Whether the end was received.
    pub fn is_ended(&self) -> bool
        ensures { result ≡ self.now.ended }
    {
        self.ended
    }

    /// Whether no more can be received, so that no further head can become whole.
    pub fn is_over(&self) -> bool {
        self.ended || self.broken
    }

    /// Whether no byte of a head is held.
    pub fn is_empty(&self) -> bool {
        self.intake.is_empty()
    }

    /// Whether no head was given in part.
    pub fn is_between(&self) -> bool
        ensures { IsTrue result ↔ (self.now.intake.ready ≡ 0) }
    {
        self.intake.is_between()
    }

    /// The most bytes of memory that the held bytes take: memory grows by doubling.
    pub fn room(&self) -> usize {
        self.peak.saturating_mul(2)
    }

    /// More may have come; with `ending` the peer has ended its side.
    pub fn wake(&mut self, ending: bool)
        ensures { self.new.intake ≡ self.old.intake }
    {
        self.drained = false;
        self.ending |= ending;
    }

    /// Whether what is held requests something costly.
    pub fn is_costly(&self) -> bool
        ensures { result ≡ is_costly self.now.intake.bytes }
    {
        self.intake.is_costly()
    }

    /// Frees memory that is not needed.
    pub fn let_go(&mut self, alloc: Global)
        ensures { self.new.intake.bytes ≡ self.old.intake.bytes }
    {
        if self.intake.is_empty() {
            self.intake = Intake::new(alloc);
            self.peak = 0;
        } else if self.intake.len() <= self.peak / 4 {
            self.intake.fit(alloc);
            self.peak = self.intake.len();
        }
    }

    /// Receives until a head can be given or nothing more has come. Returns whether bytes came. The
    /// room may hold anything before.
    pub fn hear<R: Read>(&mut self, stream: &mut R, room: &mut [u8]) -> bool
        requires { 0 < length room.old }
        ensures kept { self.new.broken ≡ false
            → Keeps (to_give self.old (R.remaining stream.old))
            (to_give self.new (R.remaining stream.new)) }
    {
        let mut moved = false;
        for _ in 0..MOST_PIECES {
            if self.intake.look() || !self.hear_more(stream, room) {
                break;
            }
            moved = true;
        }
        moved
    }

    /// Whether something can be given.
    pub fn is_ready(&mut self) -> bool
        ensures kept { self.new.intake.bytes ≡ self.old.intake.bytes }
        ensures waits { result ≡ false → front_length self.new.intake.bytes ≡ 0 }
        ensures broken { self.new.broken ≡ self.old.broken }
    {
        self.intake.look()
    }

    /// Receives a piece, if one may have come, and returns whether bytes came. A piece that did not
    /// fill its room was the last, unless an event came since. An end that came with it causes no
    /// other event.
    fn hear_more<R: Read>(&mut self, stream: &mut R, room: &mut [u8]) -> bool
        requires { 0 < length room.old }
        ensures kept { self.new.broken ≡ false
            → Keeps (to_give self.old (R.remaining stream.old))
            (to_give self.new (R.remaining stream.new)) }
        ensures ended { self.new.ended ≡ true
            → (self.old.ended ≡ true) ⊎ IsAtEnd (R.remaining stream.new) }
        ensures sound { result ≡ true → self.new.broken ≡ false }
    {
        if self.broken {
            return false;
        }
        if self.ended || (self.drained && !self.ending) {
            return false;
        }
        self.receive(stream, room)
    }

    /// Receives a piece, and returns whether bytes came.
    fn receive<R: Read>(&mut self, stream: &mut R, room: &mut [u8]) -> bool
        requires sound { self.old.broken ≡ false }
        requires room { 0 < length room.old }
        ensures kept { self.new.broken ≡ false
            → Keeps (to_give self.old (R.remaining stream.old))
            (to_give self.new (R.remaining stream.new)) }
        ensures ended { self.new.ended ≡ true
            → (self.old.ended ≡ true) ⊎ IsAtEnd (R.remaining stream.new) }
        ensures sound { result ≡ true → self.new.broken ≡ false }
    {
        match receive(stream, room) {
            Received::Bytes(count) => {
                self.drained = count < room.len();
                self.hold(&room[..count])
            }
            Received::Nothing => {
                self.drained = true;
                false
            }
            Received::End => {
                self.ended = true;
                false
            }
            Received::Broken => {
                self.broken = true;
                false
            }
        }
    }

    /// Holds a piece. Out of memory the connection is broken.
    fn hold(&mut self, piece: &[u8]) -> bool
        ensures held { self.new.broken ≡ false
            → self.new.intake.bytes ≡ self.old.intake.bytes ++ piece.now }
        ensures ended { self.new.ended ≡ self.old.ended }
        ensures sound { result ≡ true → self.new.broken ≡ self.old.broken }
    {
        if self.intake.append(piece).is_err() {
            self.broken = true;
            return false;
        }
        self.peak = self.peak.max(self.intake.len());
        true
    }

    /// Gives bytes of whole heads, if there is one.
    fn give(&mut self, room: &mut [u8]) -> Option<usize>
        requires { 0 < length room.old }
        ensures some { IfSome result (λ count. (0 < count) × (count ≤ length room.new)
            × (take count room.new ++ self.new.intake.bytes ≡ self.old.intake.bytes)) }
        ensures none { result ≡ None → (self.new.intake.bytes ≡ self.old.intake.bytes)
            × (front_length self.new.intake.bytes ≡ 0) }
        ensures broken { self.new.broken ≡ self.old.broken }
    {
        if self.intake.look() {
            Some(self.intake.give(room))
        } else {
            None
        }
    }

    /// Gives bytes of whole heads. If there is none, it receives what came since.
    pub fn read<R: Read>(&mut self, stream: &mut R, room: &mut [u8]) -> Given
        requires { 0 < length room.old }
        ensures gives { Gives (to_give self.old (R.remaining stream.old))
            (to_give self.new (R.remaining stream.new)) result room.new }
        ensures end { result ≡ Given.End → front_length self.new.intake.bytes ≡ 0 }
    {
        match self.give(room) {
            Some(count) => Given::Bytes(count),
            None => {
                self.hear_more(stream, room);
                self.give_now(room)
            }
        }
    }

    /// Gives what is held.
    fn give_now(&mut self, room: &mut [u8]) -> Given
        requires { 0 < length room.old }
        ensures bytes { GivesHeld self.old self.new result room.new }
    {
        if self.broken {
            return Given::Broken;
        }
        match self.give(room) {
            Some(count) => Given::Bytes(count),
            None => Given::End,
        }
    }
}
