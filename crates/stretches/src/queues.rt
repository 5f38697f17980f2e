ghost use Rattle.std.specs.Prelude.{◌≡◌, IfSome, None, true};
ghost use Rattle.stretches.specs.Queues.{AllAtLeast, charged, none_waits, queue_for, raised};
ghost use Rattle.stretches.specs.Queues.{spent_on, waits_in};

/// Where a connection waits for a worker.
#[derive(Clone, Copy, PartialEq, Eq)]
pub enum Queue {
    /// At the listening socket.
    Fresh,
    /// Its last turn was short, and nothing that it holds requests something costly.
    Light,
    /// Its last turn was long, or it requests something costly.
    Heavy,
}

impl Queue {
    /// The queue for an accepted connection whose next request has come: by whether its last turn
    /// was long, and by whether it requests something costly.
    pub fn for_next(was_long: bool, costly: bool) -> Queue
        ensures { result ≡ queue_for was_long costly }
    {
        if was_long || costly {
            Queue::Heavy
        } else {
            Queue::Light
        }
    }
}

/// In which queues a connection waits.
#[derive(Clone, Copy, PartialEq, Eq)]
pub struct Waiting {
    pub fresh: bool,
    pub light: bool,
    pub heavy: bool,
}

/// How many microseconds a worker has spent on each queue. While connections wait in all of them,
/// the queues get equal shares of its time, so that none starves.
#[derive(Clone, Copy, PartialEq, Eq)]
pub struct Shared {
    pub fresh: u64,
    pub light: u64,
    pub heavy: u64,
}

impl Shared {
    /// Nothing has been spent yet.
    pub const NONE: Shared = Shared {
        fresh: 0,
        light: 0,
        heavy: 0,
    };

    /// The queue that is served next: of those in which a connection waits, the one on which least
    /// was spent.
    pub fn next(self, waiting: Waiting) -> Option<Queue>
        ensures waits { IfSome result (λ queue. waits_in waiting queue ≡ true) }
        ensures least { IfSome result (λ queue. AllAtLeast self waiting queue) }
        ensures none { result ≡ None → none_waits waiting ≡ true }
    {
        let light = waiting.light;
        let fresh = waiting.fresh;
        let heavy = waiting.heavy;
        if light && !(fresh && self.fresh < self.light) && !(heavy && self.heavy < self.light) {
            Some(Queue::Light)
        } else if fresh && !(heavy && self.heavy < self.fresh) {
            Some(Queue::Fresh)
        } else if heavy {
            Some(Queue::Heavy)
        } else {
            None
        }
    }

    /// A queue is served next. An empty queue saves no time for later: its count rises to that of
    /// the queue that is served.
    pub fn serve(&mut self, queue: Queue, waiting: Waiting)
        ensures { self.new ≡ raised self.old queue waiting }
    {
        let spent = self.of(queue);
        if !waiting.fresh {
            self.fresh = self.fresh.max(spent);
        }
        if !waiting.light {
            self.light = self.light.max(spent);
        }
        if !waiting.heavy {
            self.heavy = self.heavy.max(spent);
        }
    }

    /// So many microseconds were spent on a queue.
    pub fn charge(&mut self, queue: Queue, micros: u64)
        ensures { self.new ≡ charged self.old queue micros }
    {
        match queue {
            Queue::Fresh => self.fresh = self.fresh.saturating_add(micros),
            Queue::Light => self.light = self.light.saturating_add(micros),
            Queue::Heavy => self.heavy = self.heavy.saturating_add(micros),
        }
    }

    /// What was spent on a queue.
    fn of(self, queue: Queue) -> u64
        ensures { result ≡ spent_on self queue }
    {
        match queue {
            Queue::Fresh => self.fresh,
            Queue::Light => self.light,
            Queue::Heavy => self.heavy,
        }
    }
}
