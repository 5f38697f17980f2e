ghost use Rattle.std.specs.Prelude.{◌≡◌, ◌≤◌, ◌+◌, ◌++◌, [], length, drop, OnOk, OnErr};

use std::alloc::Global;
use std::marker::Model;
use td_base::NoMemory;

/// Bytes that were written and not sent. Once half of the buffer was sent, that half is freed, so
/// the buffer has at most twice what is left.
#[derive(Drop)]
pub struct Unsent {
    bytes: Vec<u8>,
    sent: usize,
}

impl Model for Unsent {
    ghost use Rattle.std.specs.Prelude.{◌≤◌, ◌+◌, drop, length};
    ghost use Rattle.devices.specs.Buffers.{UnsentView};

    ghost Value = { UnsentView };

    ghost view = { λ u. record {
      rest = drop u.sent u.bytes.items;
      size = length u.bytes.items;
    } };

    ghost invariant = { λ u. u.sent + u.sent ≤ length u.bytes.items };
}

impl Unsent {
    /// No bytes. It takes no memory, and grows by the allocator.
    pub fn new(alloc: Global) -> Unsent
        ensures { result ≡ record { rest = []; size = 0 } }
    {
        Unsent {
            bytes: Vec::new(alloc),
            sent: 0,
        }
    }

    /// The bytes that are not sent.
    pub fn as_slice(&self) -> &[u8]
        ensures { result.now ≡ self.now.rest }
    {
        &self.bytes[self.sent..]
    }

    /// How many bytes the buffer has, those that were sent included.
    pub fn size(&self) -> usize
        ensures size { result ≡ self.now.size }
        ensures half { result ≤ length self.now.rest + length self.now.rest }
    {
        self.bytes.len()
    }

    /// How many bytes of memory it takes.
    pub fn room(&self) -> usize {
        self.bytes.capacity()
    }

    /// Appends the piece, in memory for exactly that and what is left.
    pub fn append(&mut self, piece: &[u8]) -> Result<(), NoMemory>
        ensures ok { OnOk result (self.new.rest ≡ self.old.rest ++ piece.now) }
        ensures err { OnErr result (self.new.rest ≡ self.old.rest) }
    {
        cut_front(&mut self.bytes, self.sent);
        self.sent = 0;
        self.bytes.reserve_exact(piece.len())?;
        self.bytes.extend_from_slice(piece)?;
        Ok(())
    }

    /// So many bytes were sent.
    pub fn take(&mut self, len: usize)
        requires { len ≤ length self.old.rest }
        ensures { self.new.rest ≡ drop len self.old.rest }
    {
        let sent = self.sent + len;
        if sent <= self.bytes.len() - sent {
            self.sent = sent;
        } else {
            cut_front(&mut self.bytes, sent);
            self.sent = 0;
        }
    }
}

/// Removes so many bytes from the front, and frees the memory that the others do not need.
fn cut_front(bytes: &mut Vec<u8>, len: usize)
    requires { len ≤ length bytes.old.items }
    ensures { bytes.new.items ≡ drop len bytes.old.items }
{
    if len == 0 {
        return;
    }
    let left = bytes.len() - len;
    bytes.copy_within(len.., 0);
    bytes.truncate(left);
    bytes.shrink_to_fit();
}
