ghost use Rattle.std.specs.Prelude.{◌<◌, ◌≡◌, IsTrue, length, max, false, true};
ghost use Rattle.std.specs.Io.KnownBytes.{Keeps};
ghost use Rattle.devices.specs.Flows.{EndsStretch, Gives, to_give, written};
ghost use Rattle.devices.specs.Sockets.{Sends};
ghost use Rattle.stretches.specs.Costs.{is_costly};
ghost use Rattle.stretches.specs.Fates.{fate_of};
ghost use Rattle.stretches.specs.Fronts.{front_length};
ghost use Rattle.stretches.specs.Queues.{queue_for};
ghost use Rattle.stretches.specs.Turns.{is_spent};

use crate::incoming::{Given, Incoming};
use crate::now::Now;
use crate::outgoing::Outgoing;
use crate::socket::Sent;
use std::alloc::Global;
use std::io::{Read, Write};
use stretches::{Fate, Life, Phase, Queue, WorkerTurn, fate_after};
use td_base::End;

mod advancing;

/// The most bytes of a closed connection that are read and thrown away, so that its peer gets the
/// last reply.
pub const LINGER_BYTES: usize = 1_048_576;

/// How many pieces are sent or thrown away before other connections have their turn.
const MOST_PIECES: u32 = 16;

/// How many sent bytes of a reply count as a turn: a peer that takes fewer makes little progress.
const PROGRESS_BYTES: usize = 65_536;

/// The state of a connection that no worker serves.
#[derive(Clone, Copy, PartialEq, Eq)]
pub enum Readiness {
    /// It can be served.
    Ready,
    /// It waits for its peer.
    Waits,
    /// It is over.
    Gone,
}

/// How far the closing of a connection has come.
#[derive(Clone, Copy, PartialEq, Eq)]
enum Stage {
    /// It is served.
    Open,
    /// It is closed once what was written has been sent.
    Leaving,
    /// Its sending side is ended, and so many bytes were thrown away since.
    Shut(usize),
}

/// A stream, with the bytes that it gave and that were not handed on, and those that were written
/// and not sent. A worker has it for a stretch of whole heads. A read gives what has come of them,
/// and returns the end if no further head is whole. A write holds what its peer does not take at
/// once. Neither waits.
#[derive(Drop)]
pub struct Wire<S> {
    stream: S,
    incoming: Incoming,
    outgoing: Outgoing,
    alloc: Global,
    stage: Stage,
    /// Whether its last read returned the end of the stretch.
    stretch_ended: bool,
    /// Its present or last turn, whether that took long, and where it waits for the next.
    turn: WorkerTurn,
    was_long: bool,
    queue: Queue,
    /// When a byte was last received or sent, the number of its last turn, and how much was sent
    /// since. Then the time of the first byte of a head that is not whole, and whether no byte came
    /// yet. Times are in milliseconds. `Life` of `stretches` says what a turn is.
    moved: u64,
    turned: u64,
    taken: usize,
    began: Option<u64>,
    silent: bool,
    /// Since when it has held memory: its last stretch, or the moment when it held none.
    since: u64,
    /// The key under which its events come, and whether it waits in a queue for a worker.
    pub key: Option<usize>,
    pub queued: bool,
}

impl<S> Wire<S> {
    /// The connection of a stream that was accepted at this moment.
    pub fn new(alloc: Global, stream: S, now: Now) -> Wire<S> {
        Wire {
            stream,
            incoming: Incoming::new(alloc),
            outgoing: Outgoing::new(alloc),
            alloc,
            stage: Stage::Open,
            stretch_ended: false,
            turn: WorkerTurn::new(0, 0),
            was_long: false,
            queue: Queue::Light,
            moved: now.millis,
            turned: now.turn,
            taken: 0,
            began: None,
            silent: true,
            since: now.millis,
            key: None,
            queued: false,
        }
    }

    /// Begins a stretch for this turn, in which so many bytes may be held.
    pub fn begin(&mut self, allowance: usize, turn: WorkerTurn)
        ensures incoming { self.new.incoming.intake.bytes ≡ self.old.incoming.intake.bytes }
        ensures outgoing { self.new.outgoing.unsent.rest ≡ self.old.outgoing.unsent.rest }
        ensures turn { self.new.turn ≡ turn }
    {
        self.queued = false;
        self.stretch_ended = false;
        self.began = None;
        self.silent = false;
        self.turn = turn;
        self.outgoing.begin(allowance);
    }

    /// Notes a reading of the clock in microseconds, by which its turn may be over.
    pub fn see(&mut self, micros: u64)
        ensures wire { self.new ≡ record self.old {
          turn = record self.old.turn {
            seen = max self.old.turn.seen micros;
          };
        } }
    {
        self.turn.see(micros);
    }

    /// Its present or last turn.
    pub fn turn(&self) -> WorkerTurn
        ensures { result ≡ self.now.turn }
    {
        self.turn
    }

    /// Whether it holds a further head that is whole.
    pub fn is_unfinished(&mut self) -> bool
        ensures waits { result ≡ false → front_length self.new.incoming.intake.bytes ≡ 0 }
        ensures incoming { self.new.incoming.intake.bytes ≡ self.old.incoming.intake.bytes }
        ensures outgoing { self.new.outgoing.unsent.rest ≡ self.old.outgoing.unsent.rest }
    {
        self.incoming.is_ready()
    }

    /// Notes whether its last turn was a long one.
    pub fn weigh(&mut self, was_long: bool)
        ensures { self.new ≡ record self.old { was_long = was_long } }
    {
        self.was_long = was_long;
    }

    /// Where it waits for its next turn.
    pub fn queue(&self) -> Queue
        ensures { result ≡ self.now.queue }
    {
        self.queue
    }

    /// Whether this is a quick turn, and no byte is left to give in it.
    pub fn is_exhausted(&self) -> bool {
        self.queue != Queue::Heavy && self.incoming.is_empty()
    }

    /// Chooses where it waits for its next turn, by its last one and by what it requests.
    fn classify(&mut self)
        ensures { self.new ≡ record self.old {
          queue = queue_for self.old.was_long (is_costly self.old.incoming.intake.bytes);
        } }
    {
        self.queue = Queue::for_next(self.was_long, self.incoming.is_costly());
    }

    /// Whether its turn is spent, and no head was given in part.
    fn is_spent_between(&self) -> bool
        ensures end { IsTrue result
            → (is_spent self.now.turn ≡ true) × (self.now.incoming.intake.ready ≡ 0) }
    {
        self.turn.is_spent() && self.incoming.is_between()
    }

    /// What becomes of it after a stretch that ended so.
    pub fn finish(&mut self, end: End, now: Now) -> Fate
        ensures fate { result ≡ fate_of end self.old.stretch_ended self.old.incoming.ended }
        ensures incoming { self.new.incoming.intake.bytes ≡ self.old.incoming.intake.bytes }
        ensures outgoing { self.new.outgoing.unsent.rest ≡ self.old.outgoing.unsent.rest }
    {
        self.moved = now.millis;
        self.turned = now.turn;
        self.taken = 0;
        self.since = now.millis;
        let fate = fate_after(end, self.stretch_ended, self.incoming.is_ended());
        if fate == Fate::Leaves {
            self.leave();
        }
        fate
    }

    /// It is not served any more, and is closed once what was written has been sent.
    pub fn leave(&mut self)
        ensures incoming { self.new.incoming.intake.bytes ≡ self.old.incoming.intake.bytes }
        ensures outgoing { self.new.outgoing.unsent.rest ≡ self.old.outgoing.unsent.rest }
    {
        self.queued = false;
        if self.stage == Stage::Open {
            self.stage = Stage::Leaving;
        }
    }

    /// How many bytes it holds that its peer has not taken.
    pub fn unsent(&self) -> usize
        ensures { result ≡ length self.now.outgoing.unsent.rest }
    {
        self.outgoing.len()
    }

    /// How many bytes of memory it takes for received and for written bytes.
    pub fn room(&self) -> usize {
        self.incoming.room().saturating_add(self.outgoing.room())
    }

    /// Its peer may have sent more; with `ending` it has ended its side.
    pub fn wake(&mut self, ending: bool)
        ensures incoming { self.new.incoming.intake.bytes ≡ self.old.incoming.intake.bytes }
        ensures outgoing { self.new.outgoing.unsent.rest ≡ self.old.outgoing.unsent.rest }
    {
        self.incoming.wake(ending);
    }

    /// What it waits for, and since when.
    pub fn life(&self) -> Life {
        Life {
            phase: self.phase(),
            moved: self.moved,
            turned: self.turned,
            held: u64::try_from(self.room()).unwrap_or(u64::MAX),
            since: self.since,
        }
    }

    fn phase(&self) -> Phase {
        if self.queued {
            return Phase::Ready;
        }
        if self.unsent() > 0 {
            return Phase::Sending;
        }
        if self.stage != Stage::Open {
            return Phase::Leaving;
        }
        match self.began {
            Some(since) => Phase::Hearing(since),
            None if self.silent => Phase::Silent,
            None => Phase::Idle,
        }
    }

    /// So many bytes of a reply were sent.
    fn progress(&mut self, count: usize, now: Now)
        ensures incoming { self.new.incoming ≡ self.old.incoming }
        ensures outgoing { self.new.outgoing ≡ self.old.outgoing }
        ensures stream { self.new.stream ≡ self.old.stream }
    {
        self.moved = now.millis;
        self.taken = self.taken.saturating_add(count);
        if self.taken >= PROGRESS_BYTES {
            self.taken = 0;
            self.turned = now.turn;
        }
    }

    /// It waits for the next head, or for the rest of one. Memory that it does not need is freed.
    fn settle(&mut self, now: Now)
        ensures incoming { self.new.incoming.intake.bytes ≡ self.old.incoming.intake.bytes }
        ensures outgoing { self.new.outgoing.unsent.rest ≡ self.old.outgoing.unsent.rest }
    {
        if self.incoming.is_empty() {
            self.began = None;
            self.since = now.millis;
        } else if self.began.is_none() {
            self.began = Some(now.millis);
            self.turned = now.turn;
            self.since = now.millis;
            self.silent = false;
        }
        self.incoming.let_go(self.alloc);
        self.outgoing.let_go(self.alloc);
    }
}

impl<S: Read + Write> Wire<S> {
    /// Whether this is a quick turn, and no whole head is left of those that it began with.
    fn is_used_up(&mut self) -> bool
        ensures waits { result ≡ true → front_length self.new.incoming.intake.bytes ≡ 0 }
        ensures incoming { self.new.incoming.intake.bytes ≡ self.old.incoming.intake.bytes }
        ensures broken { self.new.incoming.broken ≡ self.old.incoming.broken }
        ensures outgoing { self.new.outgoing ≡ self.old.outgoing }
        ensures stream { self.new.stream ≡ self.old.stream }
        ensures turn { self.new.turn ≡ self.old.turn }
    {
        self.queue != Queue::Heavy && !self.incoming.is_ready()
    }

    /// Whether the stretch ends before anything is received.
    fn is_at_end(&mut self) -> bool
        ensures end { result ≡ true
            → EndsStretch self.old.outgoing self.old.turn self.new.incoming }
        ensures incoming { self.new.incoming.intake.bytes ≡ self.old.incoming.intake.bytes }
        ensures broken { self.new.incoming.broken ≡ self.old.incoming.broken }
        ensures outgoing { self.new.outgoing ≡ self.old.outgoing }
        ensures stream { self.new.stream ≡ self.old.stream }
        ensures turn { self.new.turn ≡ self.old.turn }
    {
        !self.outgoing.is_open() || self.is_spent_between() || self.is_used_up()
    }

    /// Gives bytes of whole heads. The stretch ends if no further head is whole, if the last reply
    /// is not sent yet, if much was written, or between two heads once its turn is spent. A quick
    /// turn receives nothing: a costly request that came since waits in its own queue.
    pub fn read(&mut self, room: &mut [u8]) -> Given
        requires { 0 < length room.old }
        ensures gives { Gives (to_give self.old.incoming (S.remaining self.old.stream))
            (to_give self.new.incoming (S.remaining self.new.stream)) result room.new }
        ensures end { result ≡ Given.End
            → EndsStretch self.old.outgoing self.old.turn self.new.incoming }
        ensures turn { self.new.turn ≡ self.old.turn }
    {
        if self.is_at_end() {
            self.stretch_ended = true;
            return Given::End;
        }
        let given = self.incoming.read(&mut self.stream, room);
        if given == Given::End {
            self.stretch_ended = true;
        }
        given
    }

    /// Sends the piece, or holds what the stream does not take.
    pub fn write(&mut self, piece: &[u8]) -> Sent
        requires { 0 < length piece.now }
        ensures { Sends (written self.old.outgoing (S.contents self.old.stream))
            (written self.new.outgoing (S.contents self.new.stream)) result piece.now }
    {
        self.outgoing.write(&mut self.stream, piece)
    }

    /// Sends what is held, as much as the stream takes, and returns whether the stream is sound.
    fn flush(&mut self, now: Now) -> bool
        ensures { Keeps (written self.old.outgoing (S.contents self.old.stream))
            (written self.new.outgoing (S.contents self.new.stream)) }
    {
        for _ in 0..MOST_PIECES {
            if self.unsent() == 0 {
                self.turned = now.turn;
                return true;
            }
            match self.outgoing.flush(&mut self.stream) {
                Sent::Bytes(count) => self.progress(count, now),
                Sent::Nothing => return true,
                Sent::Broken => return false,
            }
        }
        true
    }

    /// Receives until a head is whole, or nothing more has come.
    fn hear(&mut self, room: &mut [u8], millis: u64)
        requires { 0 < length room.old }
        ensures { self.new.incoming.broken ≡ false
            → Keeps (to_give self.old.incoming (S.remaining self.old.stream))
            (to_give self.new.incoming (S.remaining self.new.stream)) }
    {
        if self.incoming.hear(&mut self.stream, room) {
            self.moved = millis;
        }
    }
}
