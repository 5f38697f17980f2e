//! Objects of the outside that record the calls to them.
use crate::ending::NetworkAsked;
use std::alloc::Global;
use std::mem;
use td_base::{Begin, Made, Network, Spawner};

/// The requests to a network, call by call.
#[derive(Drop)]
pub struct Calls {
    /// The requests for doors.
    pub asked: Vec<NetworkAsked>,
    /// The addresses of the requests for an upstream.
    pub reached: Vec<Vec<u8>>,
}

/// A network, and the requests to it.
#[derive(Drop)]
pub struct WatchedNetwork<N> {
    inner: N,
    calls: Calls,
}

impl<N> WatchedNetwork<N> {
    /// The network, to which no request was made yet.
    pub fn new(alloc: Global, inner: N) -> WatchedNetwork<N> {
        WatchedNetwork {
            inner,
            calls: Calls::new(alloc),
        }
    }

    /// Takes the requests to it so far.
    pub fn take_calls(&mut self, alloc: Global) -> Calls {
        mem::replace(&mut self.calls, Calls::new(alloc))
    }
}

impl<N: Network> Network for WatchedNetwork<N> {
    type Door = N::Door;

    type Up = N::Up;

    ghost seen = { λ w. N.seen w.inner };

    fn doors(&mut self, alloc: Global, address: &[u8], number: u32) -> Made<Vec<N::Door>> {
        self.calls.keep_asked(alloc, address, number);
        self.inner.doors(alloc, address, number)
    }

    fn upstream(&mut self, alloc: Global, address: &[u8]) -> Made<N::Up> {
        self.calls.keep_reached(alloc, address);
        self.inner.upstream(alloc, address)
    }
}

/// Without memory a call is not recorded, and the run differs.
impl Calls {
    fn new(alloc: Global) -> Calls {
        Calls {
            asked: Vec::new(alloc),
            reached: Vec::new(alloc),
        }
    }

    fn keep_asked(&mut self, alloc: Global, address: &[u8], doors: u32) {
        if let Ok(address) = Vec::from_slice(alloc, address) {
            let _ = self.asked.push(NetworkAsked {
                address,
                doors: u64::from(doors),
            });
        }
    }

    fn keep_reached(&mut self, alloc: Global, address: &[u8]) {
        if let Ok(address) = Vec::from_slice(alloc, address) {
            let _ = self.reached.push(address);
        }
    }
}

/// A spawner, and how often it was to start a work.
#[derive(Drop)]
pub struct WatchedSpawner<S> {
    inner: S,
    begun: u64,
}

impl<S> WatchedSpawner<S> {
    /// The spawner, which started no work yet.
    pub fn new(inner: S) -> WatchedSpawner<S> {
        WatchedSpawner { inner, begun: 0 }
    }

    /// How often it was to start a work.
    pub fn starts(&self) -> u64 {
        self.begun
    }
}

impl<S: Spawner> Spawner for WatchedSpawner<S> {
    ghost faults = { λ w. S.faults w.inner };

    ghost active = { λ w. S.active w.inner };

    fn begin(&mut self) -> Begin {
        self.begun = self.begun.saturating_add(1);
        self.inner.begin()
    }

    fn refuse(&mut self) {
        self.inner.refuse();
    }

    fn count_join(&mut self) {
        self.inner.count_join();
    }
}
