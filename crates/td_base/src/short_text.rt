ghost use Rattle.std.specs.Prelude.{◌≡◌, ◌+◌, ◌≤◌, [], ◌++◌, length};

use arrayvec::ArrayVec;
use std::marker::Model;

/// At most `N` bytes in fixed room, without allocation. Contracts see it as the list of its bytes.
#[derive(Debug, Drop, PartialEq, Eq)]
pub struct ShortText<const N: usize> {
    held: ArrayVec<u8, N>,
}

impl<const N: usize> Model for ShortText<N> {
    ghost use Rattle.std.specs.Prelude.{List, ℕ};

    ghost Value = { List ℕ };

    ghost view = { λ t. t.held.items };

    ghost inverse = { λ bytes. record { held = record { items = bytes } } };
}

impl<const N: usize> ShortText<N> {
    /// No bytes.
    pub fn new() -> Self
        ensures { result ≡ [] }
    {
        ShortText {
            held: ArrayVec::new(),
        }
    }

    /// The bytes, of which there are at most `N`.
    pub fn as_slice(&self) -> &[u8]
        ensures value { result.now ≡ self.now }
        ensures fits { length self.now ≤ N }
    {
        self.held.as_slice()
    }

    /// Appends the bytes. There must be room for them.
    pub fn append(&mut self, bytes: &[u8])
        requires { length self.old + length bytes.now ≤ N }
        ensures { self.new ≡ self.old ++ bytes.now }
    {
        let _ = self.held.try_extend_from_slice(bytes);
    }

    /// A copy.
    pub fn copy(&self) -> Self
        ensures { result ≡ self.now }
    {
        let mut text = ShortText::new();
        text.append(self.as_slice());
        text
    }
}
