//! How the connections at a socket are shared out among its listeners.
use std::alloc::{AllocError, Global};
use std::sync::Arc;
use std::sync::atomic::{AtomicU64, Ordering};
use stretches::accepts;

/// How many descriptors a process may open, if the system does not report it.
const USUAL_DESCRIPTORS: u64 = 1_024;

/// How many of them are reserved for files, streams and the listening socket.
pub const RESERVED_DESCRIPTORS: u64 = 64;

/// The most connections that one listener keeps.
const MOST_CONNECTIONS: u64 = 65_536;

/// How many connections all listeners at a socket have, and how many listeners are not broken.
#[derive(Drop)]
pub struct Doors {
    connections: AtomicU64,
    whole: AtomicU64,
}

/// The same, shared by the listeners.
pub type Counter = Arc<Doors, Global>;

/// How many connections one of the listeners has, next to those of all.
#[derive(Drop)]
pub struct Shares {
    all: Counter,
    doors: u32,
    own: u32,
}

impl Shares {
    /// Those of one of so many listeners, which has no connection yet.
    pub fn new(all: Counter, doors: u32) -> Shares {
        Shares { all, doors, own: 0 }
    }

    /// Records for all listeners that this one has so many connections.
    pub fn report(&mut self, own: usize) {
        let own = u32::try_from(own).unwrap_or(u32::MAX);
        if own > self.own {
            let more = u64::from(own - self.own);
            self.all.connections.fetch_add(more, Ordering::SeqCst);
        }
        if own < self.own {
            let fewer = u64::from(self.own - own);
            self.all.connections.fetch_sub(fewer, Ordering::SeqCst);
        }
        self.own = own;
    }

    /// The listener is broken. It returns whether it was the last one that was not.
    pub fn breaks(&self) -> bool {
        self.all.whole.fetch_sub(1, Ordering::SeqCst) == 1
    }

    /// Whether the listener accepts a connection that has waited for so many milliseconds.
    pub fn takes(&self, waited: u64) -> bool {
        let all = self.all.connections.load(Ordering::SeqCst);
        accepts(self.own, all, self.doors, waited)
    }
}

/// A count of no connections, for so many listeners.
pub fn counter(alloc: Global, doors: u32) -> Result<Counter, AllocError> {
    let doors = Doors {
        connections: AtomicU64::new(0),
        whole: AtomicU64::new(u64::from(doors)),
    };
    Ok(Arc::new(alloc, doors)?)
}

/// How many connections each of so many listeners may keep, at least one. It is a share of the
/// descriptors that the process may open, less those that are reserved.
pub fn most_of_each(doors: u32) -> usize {
    let kept = RESERVED_DESCRIPTORS.saturating_add(u64::from(doors));
    let share = descriptors().saturating_sub(kept) / u64::from(doors.max(1));
    usize::try_from(share.clamp(1, MOST_CONNECTIONS)).unwrap_or(1)
}

/// How many descriptors the process may open.
fn descriptors() -> u64 {
    let mut limit = libc::types::rlimit {
        rlim_cur: 0,
        rlim_max: 0,
    };
    if libc::getrlimit(libc::RLIMIT_NOFILE, &mut limit) == 0 {
        limit.rlim_cur
    } else {
        USUAL_DESCRIPTORS
    }
}
