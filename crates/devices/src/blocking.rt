//! Standard streams that another process has set not to block.
ghost use Rattle.std.specs.Prelude.{◌≡◌};

use libc::types::pollfd;
use std::io;
use std::io::{ErrorKind, Read, Write};
use std::os::fd::RawFd;

/// A stream whose descriptor may be set not to block, such as a pipe that another process left so.
/// A call that it cannot serve at once waits until it can.
#[derive(Drop)]
pub struct Blocking<S> {
    stream: S,
    descriptor: RawFd,
}

impl<S> Blocking<S> {
    /// The stream of this descriptor.
    pub fn new(stream: S, descriptor: RawFd) -> Blocking<S>
        ensures { result ≡ record { stream = stream; descriptor = descriptor } }
    {
        Blocking { stream, descriptor }
    }
}

impl<S: Read> Read for Blocking<S> {
    ghost remaining = { λ b. S.remaining b.stream };

    fn read(&mut self, buf: &mut [u8]) -> io::Result<usize> {
        for _ in 0..u32::MAX {
            match self.stream.read(buf) {
                Err(error) if error.kind() == ErrorKind::WouldBlock => {
                    wait(self.descriptor, libc::net::POLLIN);
                }
                result => return result,
            }
        }
        self.stream.read(buf)
    }
}

impl<S: Write> Write for Blocking<S> {
    ghost contents = { λ b. S.contents b.stream };

    fn write(&mut self, buf: &[u8]) -> io::Result<usize> {
        for _ in 0..u32::MAX {
            match self.stream.write(buf) {
                Err(error) if error.kind() == ErrorKind::WouldBlock => {
                    wait(self.descriptor, libc::net::POLLOUT);
                }
                result => return result,
            }
        }
        self.stream.write(buf)
    }

    fn flush(&mut self) -> io::Result<()> {
        self.stream.flush()
    }
}

/// Waits until a descriptor is ready for this, or a signal comes.
fn wait(descriptor: RawFd, events: i16) {
    let mut descriptors = [pollfd {
        fd: descriptor,
        events,
        revents: 0,
    }];
    let _ = libc::net::poll(&mut descriptors, -1);
}
