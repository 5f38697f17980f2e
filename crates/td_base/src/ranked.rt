//! Items that are sorted by a text.
ghost use Rattle.std.specs.Prelude.{◌≡◌, ℕ, List};

use crate::Bytes;

/// An item that is sorted by a text, in the order of its bytes.
pub trait Ranked {
    ghost text: { Self → List ℕ };

    /// The text.
    fn text(&self) -> &[u8]
        ensures { result.now ≡ text self.now };
}

impl Ranked for Bytes {
    ghost text = { λ b. b };

    fn text(&self) -> &[u8] {
        self.as_slice()
    }
}
