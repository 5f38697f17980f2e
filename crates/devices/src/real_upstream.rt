ghost use Rattle.std.specs.Prelude.{◌≡◌, ◌≤◌, None, length, IfOk};
ghost use Rattle.td_base.specs.Upstreams.{IsNewUpstream};
ghost use Rattle.devices.specs.RealUpstreams.{upstream_view};

use crate::exchanging::{AskFault, ask};
use std::alloc::Global;
use std::io::ErrorKind;
use std::net::{Net, TcpStream};
use std::time::Clock;
use td_base::{Bytes, Exchanged, Upstream};

/// Another server, at an address as that of [`RealNetwork`](crate::RealNetwork). Each exchange
/// opens a new connection and receives until the peer ends its side, or until as many bytes came as
/// were requested. It states nothing. Its faults count the failed exchanges.
#[derive(Drop)]
pub struct RealUpstream<'a, R> {
    rt: &'a R,
    address: Bytes,
    faults: u64,
    failure: Option<ErrorKind>,
}

impl<'a, R> RealUpstream<'a, R> {
    /// The server at an address, which is looked up at each exchange.
    pub(crate) fn new(rt: &'a R, address: Bytes) -> RealUpstream<'a, R>
        ensures { IsNewUpstream (upstream_view result) }
    {
        RealUpstream {
            rt,
            address,
            faults: 0,
            failure: None,
        }
    }

    /// Why the last failed exchange failed.
    pub fn failure(&self) -> Option<ErrorKind>
        ensures { result ≡ self.now.failure }
    {
        self.failure
    }
}

impl<'a, R: Net<Stream = TcpStream> + Clock> Upstream for RealUpstream<'a, R> {
    ghost seen = { upstream_view };

    fn exchange(&mut self, alloc: Global, request: &[u8], most: u64) -> Exchanged {
        match ask(
            self.rt,
            alloc,
            self.address.as_slice(),
            request,
            most as usize,
        ) {
            Ok(answer) => Exchanged::Got(answer),
            Err(AskFault::NoMemory) => Exchanged::NoMemory,
            Err(AskFault::System(kind)) => {
                self.faults = self.faults.saturating_add(1);
                self.failure = Some(kind);
                Exchanged::Failed
            }
        }
    }
}
