ghost use Rattle.std.specs.Prelude.{◌≡◌};
ghost use Rattle.stretches.specs.Lives.{comes_before, is_late, is_over, patience, rank, weight};
ghost use Rattle.stretches.specs.Lives.{yields};

/// For how many milliseconds a connection may rest between two heads.
pub const IDLE_MILLIS: u64 = 60_000;

/// For how many milliseconds a head may get no byte, and a reply send none.
pub const PROGRESS_MILLIS: u64 = 10_000;

/// How many milliseconds after its first byte a head must be whole.
pub const HEAD_MILLIS: u64 = 30_000;

/// For how many milliseconds a closed connection waits for its peer to end.
pub const LINGER_MILLIS: u64 = 2_000;

/// After how many milliseconds without progress of its reply a connection yields to a new one.
pub const STALLED_MILLIS: u64 = 2_000;

/// What a connection waits for.
#[derive(Clone, Copy, PartialEq, Eq)]
pub enum Phase {
    /// The first byte of its first head.
    Silent,
    /// The first byte of a head, after a reply.
    Idle,
    /// The rest of a head, whose first byte came at this time in milliseconds.
    Hearing(u64),
    /// Its peer, which takes a reply that was written.
    Sending,
    /// The end of its peer, after its last reply.
    Leaving,
    /// A worker. Its head is whole.
    Ready,
}

/// A connection that no worker serves. Times are in milliseconds, by one monotonic clock.
#[derive(Clone, Copy, PartialEq, Eq)]
pub struct Life {
    pub phase: Phase,
    /// When it last made progress: a byte was received or sent.
    pub moved: u64,
    /// The number of its last turn: it was accepted or handed back, began a head, or sent a good
    /// part or the end of a reply. Turns are numbered in order.
    pub turned: u64,
    /// How many bytes of memory it holds, and since when it holds any.
    pub held: u64,
    pub since: u64,
}

impl Phase {
    /// For how many milliseconds a connection may make no progress.
    pub fn patience(self) -> u64
        ensures { result ≡ patience self }
    {
        match self {
            Phase::Silent | Phase::Idle => IDLE_MILLIS,
            Phase::Hearing(_) | Phase::Sending => PROGRESS_MILLIS,
            Phase::Leaving => LINGER_MILLIS,
            Phase::Ready => u64::MAX,
        }
    }

    /// The order in which connections are closed for others: the lowest first.
    pub fn rank(self) -> u8
        ensures { result ≡ rank self }
    {
        match self {
            Phase::Silent => 0,
            Phase::Leaving => 1,
            Phase::Idle => 2,
            Phase::Hearing(_) => 3,
            Phase::Sending => 4,
            Phase::Ready => 5,
        }
    }

    /// Whether it waits for the rest of a head that should be whole by now.
    fn is_late(self, now: u64) -> bool
        ensures { result ≡ is_late self now }
    {
        match self {
            Phase::Hearing(since) => now.saturating_sub(since) >= HEAD_MILLIS,
            Phase::Silent | Phase::Idle | Phase::Sending | Phase::Leaving | Phase::Ready => false,
        }
    }
}

impl Life {
    /// Whether it is to be closed, since it rested for too long.
    pub fn is_over(self, now: u64) -> bool
        ensures { result ≡ is_over self now }
    {
        now.saturating_sub(self.moved) >= self.phase.patience() || self.phase.is_late(now)
    }

    /// Whether it may be closed for a new connection. One that waits for a worker may not, nor one
    /// whose peer takes its reply.
    pub fn yields(self, now: u64) -> bool
        ensures { result ≡ yields self now }
    {
        match self.phase {
            Phase::Ready => false,
            Phase::Sending => now.saturating_sub(self.moved) >= STALLED_MILLIS,
            Phase::Silent | Phase::Idle | Phase::Hearing(_) | Phase::Leaving => true,
        }
    }

    /// Whether it is closed before another: by what they wait for, and then by the older last
    /// turn.
    pub fn comes_before(self, other: Life) -> bool
        ensures { result ≡ comes_before self other }
    {
        let (rank, others) = (self.phase.rank(), other.phase.rank());
        rank < others || (rank == others && self.turned < other.turned)
    }

    /// How much memory it has held, and for how long: bytes times milliseconds. A millisecond that
    /// has begun counts.
    pub fn weight(self, now: u64) -> u64
        ensures { result ≡ weight self now }
    {
        let lasted = now.saturating_sub(self.since).saturating_add(1);
        self.held.saturating_mul(lasted)
    }
}
