//! The rest of a text, from whose beginning items are taken.
ghost use Rattle.std.specs.Prelude.{◌≡◌, ◌≤◌, ◌-◌, ◌==◌, length, drop, if◌then◌else◌, IfSome};
ghost use Rattle.std.specs.List.{prefix_len};
ghost use Rattle.posix_footer.specs.Items.{begins, begins_as, after_byte, run_at};
ghost use Rattle.posix_footer.specs.Grammar.{place};
ghost use Rattle.posix_footer.specs.Takes.{Skips, TakesAs, test_of};

/// The kinds of bytes that form runs.
#[derive(Clone, Copy)]
pub(crate) enum ByteKind {
    Letter,
    Digit,
    Quotable,
    /// The first byte of an offset: a digit or a sign.
    OffsetStart,
}

impl ByteKind {
    fn holds(self, byte: u8) -> bool
        ensures { result ≡ test_of self byte }
    {
        match self {
            ByteKind::Letter => byte.is_ascii_alphabetic(),
            ByteKind::Digit => byte.is_ascii_digit(),
            ByteKind::Quotable => byte.is_ascii_alphanumeric() || byte == b'+' || byte == b'-',
            ByteKind::OffsetStart => byte == b'+' || byte == b'-' || byte.is_ascii_digit(),
        }
    }
}

/// A text of `size` bytes, with the part not read yet.
#[derive(Drop)]
pub(crate) struct Parser<'a> {
    size: usize,
    left: &'a [u8],
    ghost inside: { length left.now ≤ size },
}

impl<'a> Parser<'a> {
    pub(crate) fn new(text: &'a [u8]) -> Parser<'a>
        ensures size { result.size ≡ length text.now }
        ensures left { result.left.now ≡ text.now }
    {
        Parser {
            size: text.len(),
            left: text,
        }
    }

    /// The place in bytes at which the rest begins.
    pub(crate) fn place(&self) -> usize
        ensures { result ≡ place self.now.size self.now.left.now }
    {
        self.size - self.left.len()
    }

    pub(crate) fn is_at_end(&self) -> bool
        ensures { result ≡ (length self.now.left.now == 0) }
    {
        self.left.is_empty()
    }

    /// Skips the byte, if the rest begins with it, and returns whether it does.
    pub(crate) fn eat(&mut self, byte: u8) -> bool
        ensures answer { result ≡ begins byte self.old.left.now }
        ensures size { self.new.size ≡ self.old.size }
        ensures left { self.new.left.now
            ≡ (if result then drop 1 self.old.left.now else self.old.left.now) }
    {
        match self.left {
            [first, rest @ ..] if *first == byte => {
                self.left = rest;
                true
            }
            _ => false,
        }
    }

    /// Skips the byte. The rest must begin with it.
    #[tactic(auto, unfolding(crate::specs::Items::after_byte))]
    pub(crate) fn skip(&mut self, byte: u8) -> Option<()>
        ensures size { self.new.size ≡ self.old.size }
        ensures value { Skips result self.new.left.now (after_byte byte self.old.left.now) }
    {
        if self.eat(byte) { Some(()) } else { None }
    }

    /// Whether the rest begins with a byte of a kind.
    pub(crate) fn begins_as(&self, kind: ByteKind) -> bool
        ensures { result ≡ begins_as (test_of kind) self.now.left.now }
    {
        match self.left {
            [first, ..] => kind.holds(*first),
            [] => false,
        }
    }

    /// Takes all the bytes of a kind, if their number is from `fewest` to `most`.
    #[tactic(auto, unfolding(crate::specs::Items::run_at))]
    pub(crate) fn run(&mut self, kind: ByteKind, fewest: usize, most: usize) -> Option<&'a [u8]>
        ensures size { self.new.size ≡ self.old.size }
        ensures length { IfSome result (λ run. length run.now ≤ most) }
        ensures value { TakesAs (λ run. run.now) result self.new.left.now
            (run_at (test_of kind) fewest most self.old.left.now) }
    {
        let count = count_of(kind, self.left);
        if count < fewest || most < count {
            return None;
        }
        let (run, rest) = self.left.split_at(count);
        self.left = rest;
        Some(run)
    }
}

/// How many bytes of a kind the text begins with.
fn count_of(kind: ByteKind, text: &[u8]) -> usize
    ensures value { result ≡ prefix_len (test_of kind) text.now }
    ensures inside { result ≤ length text.now }
{
    for (i, byte) in text.iter().enumerate() {
        if !kind.holds(*byte) {
            return i;
        }
    }
    text.len()
}
