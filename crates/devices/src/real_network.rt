ghost use Rattle.std.specs.Prelude.{◌≡◌, ◌≤◌, ◌+◌, None, All, IfOk, length};
ghost use Rattle.td_base.specs.Views.{Rose};
ghost use Rattle.td_base.specs.Doors.{IsNewDoor};
ghost use Rattle.devices.specs.RealDoors.{door_view};

use crate::acceptor::Acceptor;
use crate::listening::{Listening, lengthen};
use crate::real_door::RealDoor;
use crate::real_upstream::RealUpstream;
use crate::shares::{Counter, counter, most_of_each};
use std::alloc::{AllocError, AllocFailed, Global};
use std::io::{Eprint, Error, ErrorKind};
use std::net::{Net, TcpListener, TcpStream};
use std::sync::Arc;
use std::time::Clock;
use std::{io, str};
use td_base::{Bytes, Door, Made, Network, NoMemory};

/// The address at which opening a listener last failed, if memory sufficed to keep it, and why.
#[derive(Drop)]
pub struct ListenFailure {
    pub address: Option<Bytes>,
    pub kind: ErrorKind,
}

/// The network of the system. An address is `HOST:PORT`: an IPv4 address, an IPv6 address in
/// brackets, or a host's name that the system's resolver knows. Port 0 is any free one. It states
/// nothing. Its faults count the failed calls.
#[derive(Drop)]
pub struct RealNetwork<'a, R> {
    rt: &'a R,
    faults: u64,
    failure: Option<ListenFailure>,
}

/// Why no listeners were opened.
#[derive(Drop)]
enum OpenFault {
    NoMemory,
    System(ErrorKind),
}

impl From<Error> for OpenFault {
    fn from(error: Error) -> OpenFault {
        OpenFault::System(error.kind())
    }
}

impl From<AllocError> for OpenFault {
    fn from(_: AllocError) -> OpenFault {
        OpenFault::NoMemory
    }
}

impl<T: Drop> From<AllocFailed<T>> for OpenFault {
    fn from(_: AllocFailed<T>) -> OpenFault {
        OpenFault::NoMemory
    }
}

impl<'a, R> RealNetwork<'a, R> {
    /// The network that the runtime reaches. No call has failed yet.
    pub fn new(rt: &'a R) -> RealNetwork<'a, R>
        ensures faults { result.faults ≡ 0 }
        ensures failure { result.failure ≡ None }
    {
        RealNetwork {
            rt,
            faults: 0,
            failure: None,
        }
    }

    /// The address at which opening a listener last failed.
    pub fn failure(&self) -> Option<&ListenFailure> {
        self.failure.as_ref()
    }

    /// Counts a failed call.
    fn fail(&mut self, alloc: Global, address: &[u8], kind: ErrorKind)
        ensures later { self.old.faults ≤ self.new.faults }
        ensures once { self.new.faults ≤ self.old.faults + 1 }
        ensures rose { Rose self.old.faults self.new.faults }
    {
        self.faults = self.faults.saturating_add(1);
        let address = Bytes::from_slice(alloc, address).ok();
        self.failure = Some(ListenFailure { address, kind });
    }
}

impl<'a, R: Net<Listener = TcpListener, Stream = TcpStream> + Clock + Eprint + Copy> Network
    for RealNetwork<'a, R> {
    type Door = RealDoor<R>;

    type Up = RealUpstream<'a, R>;

    ghost seen = { λ n. record { content = None; faults = n.faults } };

    /// Binds one socket, at which each of the listeners accepts. An address without a port, one in
    /// use and one that no name server knows are failed calls.
    fn doors(&mut self, alloc: Global, address: &[u8], number: u32) -> Made<Vec<RealDoor<R>>> {
        match open(self.rt, alloc, address, number) {
            Ok(doors) => Made::Given(doors),
            Err(OpenFault::NoMemory) => Made::NoMemory,
            Err(OpenFault::System(kind)) => {
                self.fail(alloc, address, kind);
                Made::Failed
            }
        }
    }

    /// The server at the address. Each exchange connects again, so this call never fails.
    fn upstream(&mut self, alloc: Global, address: &[u8]) -> Made<RealUpstream<'a, R>> {
        match Bytes::from_slice(alloc, address) {
            Ok(address) => Made::Given(RealUpstream::new(self.rt, address)),
            Err(NoMemory) => Made::NoMemory,
        }
    }
}

/// Binds a socket and makes so many doors at it.
fn open<R: Net<Listener = TcpListener, Stream = TcpStream> + Clock + Eprint + Copy>(
    rt: &R,
    alloc: Global,
    address: &[u8],
    number: u32,
) -> Result<Vec<RealDoor<R>>, OpenFault>
    ensures number { IfOk result (λ doors. length doors.items ≡ number) }
    ensures new { IfOk result (λ doors. All (λ door. IsNewDoor (door_view door)) doors.items) }
{
    let listening = listen(rt, alloc, address)?;
    let all = counter(alloc, number)?;
    doors_at(rt, alloc, &listening, &all, number)
}

/// So many doors at a socket.
fn doors_at<R: Net + Clock + Eprint + Copy>(
    rt: &R,
    alloc: Global,
    listening: &Listening,
    all: &Counter,
    number: u32,
) -> Result<Vec<RealDoor<R>>, OpenFault>
    ensures number { IfOk result (λ doors. length doors.items ≡ number) }
    ensures new { IfOk result (λ doors. All (λ door. IsNewDoor (door_view door)) doors.items) }
{
    let most = most_of_each(number);
    let mut doors = Vec::new(alloc);
    for _ in 0..number {
        let door = door_at(rt, alloc, listening, all, number, most)?;
        doors.push(door)?;
    }
    Ok(doors)
}

/// One of so many doors at a socket.
fn door_at<R: Net + Clock + Eprint + Copy>(
    rt: &R,
    alloc: Global,
    listening: &Listening,
    all: &Counter,
    doors: u32,
    most: usize,
) -> io::Result<RealDoor<R>>
    ensures { IfOk result (λ door. IsNewDoor (door_view door)) }
{
    let acceptor = Acceptor::new(rt, *rt, alloc, listening, all, doors, most)?;
    Ok(RealDoor::new(acceptor))
}

/// Binds a socket that does not block.
fn listen<R: Net<Listener = TcpListener, Stream = TcpStream>>(
    rt: &R,
    alloc: Global,
    address: &[u8],
) -> Result<Listening, OpenFault> {
    let Ok(address) = str::from_utf8(address) else {
        return Err(OpenFault::System(ErrorKind::InvalidInput));
    };
    let listener = TcpListener::bind(rt, address).map_err(bind_fault)?;
    listener.set_nonblocking(true)?;
    lengthen(&listener);
    Ok(Arc::new(alloc, listener)?)
}

/// Why no socket was bound. A failure without a number of the system is that of its resolver.
fn bind_fault(error: Error) -> OpenFault {
    match error.kind() {
        ErrorKind::Uncategorized if error.raw_os_error().is_none() => {
            OpenFault::System(ErrorKind::NotFound)
        }
        kind => OpenFault::System(kind),
    }
}
