//! Addresses at which a network cannot listen.
use crate::fault::fault_of_call;
use case_lines::{Answer, AnswerBuilder, CaseFault, Row, display_text};
use devices::{RealDoor, RealNetwork};
use std::alloc::Global;
use std::io::{Eprint, ErrorKind};
use std::net::{Net, TcpListener, TcpStream};
use std::time::Clock;
use td_base::{Made, Network};

/// `listen ADDRESS`: the listen failure of a network, before and after it was to listen at this
/// address. `taken` means the address of an open door.
pub fn listen<R>(rt: &R, alloc: Global, row: &Row) -> Answer
where
    R: Net<Listener = TcpListener, Stream = TcpStream> + Clock + Eprint + Copy,
{
    let address = row.word(0)?;
    if address != b"taken".as_slice() {
        return outcome_of(rt, alloc, address);
    }
    let door = open(rt, alloc)?;
    let taken = address_of(alloc, &door)?;
    outcome_of(rt, alloc, taken.as_slice())
}

/// The address of a door.
fn address_of<R: Clock + Eprint + Copy>(alloc: Global, door: &RealDoor<R>) -> Answer {
    display_text(alloc, &door.local_addr().map_err(fault_of_call)?)
}

fn outcome_of<R>(rt: &R, alloc: Global, address: &[u8]) -> Answer
where
    R: Net<Listener = TcpListener, Stream = TcpStream> + Clock + Eprint + Copy,
{
    let mut network = RealNetwork::new(rt);
    let before = failure(&network);
    match network.doors(alloc, address, 1) {
        Made::Given(_doors) => case_lines::bytes(alloc, b"listens"),
        Made::NoMemory => Err(CaseFault::NoMemory),
        Made::Failed => both(alloc, before, failure(&network)),
    }
}

fn both(alloc: Global, before: Option<ErrorKind>, after: Option<ErrorKind>) -> Answer {
    let mut builder = AnswerBuilder::new(alloc);
    builder.add_debug(&before);
    builder.add_bytes(b" ");
    builder.add_debug(&after);
    builder.finish()
}

fn failure<R>(network: &RealNetwork<R>) -> Option<ErrorKind> {
    network.failure().map(|failure| failure.kind)
}

/// A door at a free port.
pub fn open<R>(rt: &R, alloc: Global) -> Result<RealDoor<R>, CaseFault>
where
    R: Net<Listener = TcpListener, Stream = TcpStream> + Clock + Eprint + Copy,
{
    match RealNetwork::new(rt).doors(alloc, b"127.0.0.1:0", 1) {
        Made::Given(mut doors) => doors.pop().ok_or(CaseFault::Strange),
        Made::Failed => Err(CaseFault::Strange),
        Made::NoMemory => Err(CaseFault::NoMemory),
    }
}
