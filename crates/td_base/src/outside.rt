ghost use Rattle.std.specs.Prelude.{◌<◌, length};
ghost use Rattle.td_base.specs.Outside.{Reads, Writes, Looks, ConnReads, ConnWrites};
ghost use Rattle.td_base.specs.Views.{SourceView, SinkView, StoreView, ConnView};

use crate::Bytes;
use std::alloc::Global;

/// The result of one read of a [`Source`].
#[derive(Clone, Copy, Debug, PartialEq, Eq)]
pub enum ReadStep {
    /// This many bytes, at least one, are at the beginning of the buffer.
    Got(usize),
    /// No byte is left.
    End,
    /// The source failed.
    Failed,
}

/// The result of one write to a [`Sink`].
#[derive(Clone, Copy, Debug, PartialEq, Eq)]
pub enum WriteStep {
    /// This many bytes, at least one, were taken from the beginning of the piece.
    Took(usize),
    /// The sink failed.
    Failed,
}

/// The result of reading a path of a [`Store`].
#[derive(Drop, PartialEq, Eq)]
pub enum FileRead {
    /// The file's first bytes, at most as many as requested.
    Found(Bytes),
    /// The file does not exist.
    Absent,
    /// The store failed.
    Failed,
    /// Out of memory.
    NoMemory,
}

/// Bytes that are read to their end. Contracts see the bytes left of a source in memory, and
/// nothing of the standard input.
pub trait Source {
    ghost seen: { Self → SourceView };

    /// Reads at least one byte to the beginning of `room`, unless none is left or the source fails.
    fn read(&mut self, room: &mut [u8]) -> ReadStep
        requires { 0 < length room.old }
        ensures read { Reads (seen self.old) (seen self.new) result room.new };
}

/// Takes bytes. Contracts see the bytes that a sink in memory took, and nothing of the standard
/// output.
pub trait Sink {
    ghost seen: { Self → SinkView };

    /// Takes at least one byte from the beginning of `piece`, unless the sink fails.
    fn write(&mut self, piece: &[u8]) -> WriteStep
        requires { 0 < length piece.now }
        ensures write { Writes (seen self.old) (seen self.new) result piece.now };
}

/// Files by path, which no call changes. Contracts see the files of a store in memory, and nothing
/// of a real file system.
pub trait Store {
    ghost seen: { Self → StoreView };

    /// Reads at most `most` bytes from the beginning of the file at `path`.
    fn read_file(&mut self, alloc: Global, path: &[u8], most: u64) -> FileRead
        ensures look { Looks (seen self.old) (seen self.new) path.now most result };
}

/// A source and a sink in one value, such as a network connection. What is read and what is written
/// are independent, and failed reads and failed writes are counted separately.
pub trait Conn {
    ghost seen: { Self → ConnView };

    /// Reads at least one byte to the beginning of `room`, unless none is left or the read fails.
    fn read(&mut self, room: &mut [u8]) -> ReadStep
        requires { 0 < length room.old }
        ensures read { ConnReads (seen self.old) (seen self.new) result room.new };

    /// Takes at least one byte from the beginning of `piece`, unless the write fails.
    fn write(&mut self, piece: &[u8]) -> WriteStep
        requires { 0 < length piece.now }
        ensures write { ConnWrites (seen self.old) (seen self.new) result piece.now };
}
