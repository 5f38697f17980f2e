//! One call of a stream that does not block.
ghost use Rattle.std.specs.Prelude.{◌<◌, length};
ghost use Rattle.devices.specs.Sockets.{Receives, Sends};

use std::io::{ErrorKind, Read, Write};

/// How often a call that a signal interrupted is repeated.
const MOST_CALLS: u32 = 64;

/// What a call of a stream that does not block received.
#[derive(Clone, Copy, PartialEq, Eq)]
pub enum Received {
    /// So many bytes, at least one.
    Bytes(usize),
    /// Nothing so far.
    Nothing,
    /// Its peer has ended its side.
    End,
    /// It failed.
    Broken,
}

/// What a call of a stream that does not block sent.
#[derive(Clone, Copy, PartialEq, Eq)]
pub enum Sent {
    /// So many bytes, at least one.
    Bytes(usize),
    /// Nothing, since its buffer is full.
    Nothing,
    /// It failed.
    Broken,
}

/// Receives what has come, and repeats the call after a signal.
pub fn receive<R: Read>(stream: &mut R, room: &mut [u8]) -> Received
    requires { 0 < length room.old }
    ensures { Receives (R.remaining stream.old) (R.remaining stream.new) result room.new }
{
    for _ in 0..MOST_CALLS {
        match stream.read(room) {
            Ok(0) => return Received::End,
            Ok(count) => return Received::Bytes(count),
            Err(error) => match error.kind() {
                ErrorKind::Interrupted => {}
                ErrorKind::WouldBlock => return Received::Nothing,
                _ => return Received::Broken,
            },
        }
    }
    Received::Broken
}

/// Sends as much as the stream takes, and repeats the call after a signal.
pub fn send<W: Write>(stream: &mut W, piece: &[u8]) -> Sent
    requires { 0 < length piece.now }
    ensures { Sends (W.contents stream.old) (W.contents stream.new) result piece.now }
{
    for _ in 0..MOST_CALLS {
        match stream.write(piece) {
            Ok(0) => return Sent::Broken,
            Ok(count) => return Sent::Bytes(count),
            Err(error) => match error.kind() {
                ErrorKind::Interrupted => {}
                ErrorKind::WouldBlock => return Sent::Nothing,
                _ => return Sent::Broken,
            },
        }
    }
    Sent::Broken
}
