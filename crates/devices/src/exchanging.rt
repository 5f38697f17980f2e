//! One exchange with another server over a new connection.
ghost use Rattle.std.specs.Prelude.{◌≤◌, length, IfOk};
ghost use Rattle.std.specs.Io.{ReadsAtMost, WritesAtMost};

use crate::patience::Patience;
use std::alloc::{AllocError, Global};
use std::io::{Error, ErrorKind, Read, Write};
use std::net::{Net, TcpStream, ToSocketAddrs};
use std::time::Clock;
use std::{io, str};
use td_base::{Bytes, NoMemory};

/// How many bytes are read from a stream at a time.
const ROOM: usize = 16_384;

/// How often a call that a signal interrupted is repeated.
const MOST_CALLS: u32 = 64;

/// Why an exchange gave no answer.
#[derive(Drop)]
pub enum AskFault {
    /// Out of memory for the answer.
    NoMemory,
    /// The system or the peer failed.
    System(ErrorKind),
}

impl From<Error> for AskFault {
    fn from(error: Error) -> AskFault {
        AskFault::System(error.kind())
    }
}

impl From<AllocError> for AskFault {
    fn from(_: AllocError) -> AskFault {
        AskFault::NoMemory
    }
}

impl From<NoMemory> for AskFault {
    fn from(_: NoMemory) -> AskFault {
        AskFault::NoMemory
    }
}

/// Sends a request to the server at an address, and returns the first bytes of its answer.
pub fn ask<R: Net<Stream = TcpStream> + Clock>(
    rt: &R,
    alloc: Global,
    address: &[u8],
    request: &[u8],
    most: usize,
) -> Result<Bytes, AskFault>
    ensures { IfOk result (λ answer. length answer ≤ most) }
{
    let Ok(address) = str::from_utf8(address) else {
        return Err(AskFault::System(ErrorKind::InvalidInput));
    };
    let patience = Patience::from_now(rt)?;
    let mut stream = connect(rt, address, &patience)?;
    exchange(rt, alloc, &mut stream, request, most, &patience)
}

/// Sends a request over a new connection, and receives the first bytes of its answer.
fn exchange<R: Clock>(
    rt: &R,
    alloc: Global,
    stream: &mut TcpStream,
    request: &[u8],
    most: usize,
    patience: &Patience,
) -> Result<Bytes, AskFault>
    ensures { IfOk result (λ answer. length answer ≤ most) }
{
    stream.set_nodelay(true)?;
    send(rt, stream, request, patience)?;
    receive(rt, alloc, stream, most, patience)
}

/// A connection to the first address of a name that accepts one.
fn connect<R: Net<Stream = TcpStream> + Clock>(
    rt: &R,
    address: &str,
    patience: &Patience,
) -> Result<TcpStream, AskFault> {
    let mut last = ErrorKind::NotFound;
    for found in address.to_socket_addrs(rt)? {
        match TcpStream::connect_timeout(rt, &found, patience.left(rt)?) {
            Ok(stream) => return Ok(stream),
            Err(error) => last = error.kind(),
        }
    }
    Err(AskFault::System(last))
}

/// Sends all the bytes.
fn send<R: Clock>(
    rt: &R,
    stream: &mut TcpStream,
    bytes: &[u8],
    patience: &Patience,
) -> io::Result<()> {
    let mut at = 0;
    'pieces: while at < bytes.len() {
        let count = write_patiently(rt, stream, &bytes[at..], patience)?;
        if count == 0 {
            return Err(Error::from(ErrorKind::WriteZero));
        }
        at += count;
    }
    Ok(())
}

/// Writes, while its peer may be waited for.
fn write_patiently<R: Clock>(
    rt: &R,
    stream: &mut TcpStream,
    piece: &[u8],
    patience: &Patience,
) -> io::Result<usize>
    ensures { WritesAtMost result piece.now }
{
    stream.set_write_timeout(Some(patience.left(rt)?))?;
    write_once(stream, piece)
}

/// Receives bytes until the peer ends its side, or until so many came.
fn receive<R: Clock>(
    rt: &R,
    alloc: Global,
    stream: &mut TcpStream,
    most: usize,
    patience: &Patience,
) -> Result<Bytes, AskFault>
    ensures { IfOk result (λ answer. length answer ≤ most) }
{
    let mut held = Bytes::new(alloc);
    let mut room = [0; ROOM];
    'pieces: while held.len() < most {
        let want = ROOM.min(most - held.len());
        let count = read_patiently(rt, stream, &mut room[..want], patience)?;
        if count == 0 {
            break;
        }
        held.append(&room[..count])?;
    }
    Ok(held)
}

/// Reads, while its peer may be waited for.
fn read_patiently<R: Clock>(
    rt: &R,
    stream: &mut TcpStream,
    room: &mut [u8],
    patience: &Patience,
) -> io::Result<usize>
    ensures { ReadsAtMost result room.new }
{
    stream.set_read_timeout(Some(patience.left(rt)?))?;
    read_once(stream, room)
}

/// Reads, and repeats the call after a signal.
fn read_once(stream: &mut TcpStream, room: &mut [u8]) -> io::Result<usize>
    ensures { ReadsAtMost result room.new }
{
    for _ in 0..MOST_CALLS {
        match stream.read(room) {
            Err(error) if error.kind() == ErrorKind::Interrupted => {}
            read => return read,
        }
    }
    Err(Error::from(ErrorKind::Interrupted))
}

/// Writes, and repeats the call after a signal.
fn write_once(stream: &mut TcpStream, piece: &[u8]) -> io::Result<usize>
    ensures { WritesAtMost result piece.now }
{
    for _ in 0..MOST_CALLS {
        match stream.write(piece) {
            Err(error) if error.kind() == ErrorKind::Interrupted => {}
            written => return written,
        }
    }
    Err(Error::from(ErrorKind::Interrupted))
}
