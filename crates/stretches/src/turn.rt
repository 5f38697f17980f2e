ghost use Rattle.std.specs.Prelude.{◌≡◌, ◌≢◌, ◌<◌, ◌≤◌, ◌+◌, ◌*◌, max};
ghost use Rattle.stretches.specs.Turns.{is_long_turn, is_spent, turn_cost, turn_limit};

use crate::queues::Queue;

/// For how many microseconds a worker serves a connection before it turns to others: a request or a
/// few.
pub const SHORT_TURN_MICROS: u64 = 2_000;

/// The same for a connection that requests something costly or whose last turn was long.
pub const LONG_TURN_MICROS: u64 = 10_000;

/// The same for the first turn of a new connection: how many wait behind it is not known.
pub const FIRST_TURN_MICROS: u64 = 50;

/// Within how many microseconds each connection of a queue has a turn, if no request takes longer
/// than a turn.
pub const ROUND_MICROS: u64 = 10_000;

/// For how many microseconds a worker serves a connection of this queue, if so many others wait in
/// it. The more wait, the shorter it is.
pub fn turn_limit(queue: Queue, others: u64) -> u64
    ensures limit { result ≡ turn_limit queue others }
    ensures round { queue ≢ Queue.Fresh → others < ROUND_MICROS
        → result * (others + 1) ≤ ROUND_MICROS }
    ensures some { 0 < result }
{
    let share = (ROUND_MICROS / others.saturating_add(1)).max(1);
    match queue {
        Queue::Fresh => FIRST_TURN_MICROS,
        Queue::Light => share.min(SHORT_TURN_MICROS),
        Queue::Heavy => share.min(LONG_TURN_MICROS),
    }
}

/// Whether a turn was a long one: it cost much, or ended before all was served that had been
/// requested.
pub fn is_long_turn(micros: u64, unfinished: bool) -> bool
    ensures { result ≡ is_long_turn micros unfinished }
{
    micros >= SHORT_TURN_MICROS || unfinished
}

/// A turn of a connection at a worker. Times are in microseconds, by one monotonic clock.
#[derive(Clone, Copy, PartialEq, Eq)]
pub struct WorkerTurn {
    pub began: u64,
    /// After how long it is spent.
    pub limit: u64,
    /// The last reading of the clock.
    pub seen: u64,
}

impl WorkerTurn {
    /// A turn that begins at this time.
    pub fn new(began: u64, limit: u64) -> WorkerTurn
        ensures { result ≡ record { began = began; limit = limit; seen = began } }
    {
        WorkerTurn {
            began,
            limit,
            seen: began,
        }
    }

    /// Notes a reading of the clock.
    pub fn see(&mut self, now: u64)
        ensures { self.new ≡ record self.old { seen = max self.old.seen now } }
    {
        self.seen = self.seen.max(now);
    }

    /// Whether its time is over. It then ends before the next request.
    pub fn is_spent(self) -> bool
        ensures { result ≡ is_spent self }
    {
        self.seen.saturating_sub(self.began) >= self.limit
    }

    /// What it cost until now, at most the processor time of its thread since it began. A thread
    /// that was not running did nothing for the connection.
    pub fn cost(self, now: u64, ran: u64) -> u64
        ensures { result ≡ turn_cost self now ran }
    {
        now.saturating_sub(self.began).min(ran)
    }
}
