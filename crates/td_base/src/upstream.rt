ghost use Rattle.td_base.specs.Upstreams.{Exchanges, UpstreamView};

use crate::Bytes;
use std::alloc::Global;

/// The result of one exchange with an [`Upstream`].
#[derive(Drop, PartialEq, Eq)]
pub enum Exchanged {
    /// The answer's bytes, at most as many as requested.
    Got(Bytes),
    /// The exchange failed.
    Failed,
    /// Out of memory.
    NoMemory,
}

/// An exchange that gave an answer: the request's bytes, the most bytes of the answer that were
/// requested, and those received.
#[derive(Drop, PartialEq, Eq)]
pub struct Exchange {
    pub request: Bytes,
    pub most: u64,
    pub answer: Bytes,
}

/// Another server, to which requests are sent one after the other. Contracts see the exchanges of a
/// server in memory, and nothing of a real one.
pub trait Upstream {
    ghost seen: { Self → UpstreamView };

    /// Sends a request, and receives the answer up to its end or to `most` bytes of it.
    fn exchange(&mut self, alloc: Global, request: &[u8], most: u64) -> Exchanged
        ensures exchanges { Exchanges (seen self.old) (seen self.new) request.now most result };
}
