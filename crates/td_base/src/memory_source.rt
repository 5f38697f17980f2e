ghost use Rattle.std.specs.Prelude.{◌≡◌, ◌≢◌, ◌<◌, ◌≤◌, [], Some, length, min, take};
ghost use Rattle.std.specs.Prelude.{drop};
ghost use Rattle.td_base.specs.Memory.{piece_size, source_view};
ghost use Rattle.td_base.specs.Outside.{Reads, GivenTells};

use crate::piece_sizes::PieceSizes;
use crate::{Bytes, Items, ReadStep, Source};
use std::marker::Model;

/// A source over bytes in memory. Contracts see what is left, and it never fails.
#[derive(Drop)]
pub struct MemorySource {
    bytes: Bytes,
    at: usize,
    sizes: PieceSizes,
}

impl Model for MemorySource {
    ghost use Rattle.std.specs.Prelude.{◌≤◌, take, drop, length};
    ghost use Rattle.td_base.specs.Memory.{SourceState};

    ghost Value = { SourceState };

    ghost view = { λ s. record {
      given = take s.at s.bytes;
      left = drop s.at s.bytes;
      sizes = s.sizes;
    } };

    ghost invariant = { λ s. s.at ≤ length s.bytes };
}

impl MemorySource {
    /// A source of these bytes, none of which has been read.
    pub fn new(bytes: Bytes) -> MemorySource
        ensures { result ≡ record { given = []; left = bytes; sizes = [] } }
    {
        let sizes = PieceSizes::none(bytes.allocator());
        MemorySource {
            bytes,
            at: 0,
            sizes,
        }
    }

    /// The same, with the size of the piece that each read gives while there is room for it.
    pub fn in_pieces(bytes: Bytes, sizes: Items<usize>) -> MemorySource
        ensures { result ≡ record { given = []; left = bytes; sizes = sizes } }
    {
        let sizes = PieceSizes::new(sizes);
        MemorySource {
            bytes,
            at: 0,
            sizes,
        }
    }

    /// The bytes that its reads have given.
    pub fn given(&self) -> &[u8]
        ensures { result.now ≡ self.now.given }
    {
        &self.bytes.as_slice()[..self.at]
    }

    /// The bytes that are left.
    pub fn left(&self) -> &[u8]
        ensures { result.now ≡ self.now.left }
    {
        &self.bytes.as_slice()[self.at..]
    }
}

impl Source for MemorySource {
    ghost seen = { source_view };

    fn read(&mut self, room: &mut [u8]) -> ReadStep
        requires { 0 < length room.old }
        ensures read { Reads (source_view self.old) (source_view self.new) result room.new }
        ensures given { GivenTells (Some self.old.given) (Some self.new.given) result room.new }

        // It ends when no byte is left; otherwise it gives a piece of the next size.
        ensures end { self.old.left ≡ [] → (result ≡ ReadStep.End) × (self.new ≡ self.old) }
        ensures piece { self.old.left ≢ []
            → result ≡ ReadStep.Got
            (piece_size self.old.sizes (min (length self.old.left) (length room.old))) }
        ensures sizes { self.old.left ≢ [] → self.new.sizes ≡ drop 1 self.old.sizes }
    {
        let left = &self.bytes.as_slice()[self.at..];
        if left.is_empty() {
            return ReadStep::End;
        }
        let size = self.sizes.next(left.len().min(room.len()));
        copy_prefix(left, room, size);
        self.at += size;
        ReadStep::Got(size)
    }
}

/// Copies the first `size` bytes to the beginning of `room`.
fn copy_prefix(from: &[u8], room: &mut [u8], size: usize)
    requires from { size ≤ length from.now }
    requires room { size ≤ length room.old }
    ensures { take size room.new ≡ take size from.now }
{
    room[..size].copy_from_slice(&from[..size]);
}
