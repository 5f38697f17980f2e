ghost use Rattle.std.specs.Prelude.{◌≡◌, ℕ, List, [], ◌∷◌, ◌+◌, ◌<◌, ◌≤◌, ◌++◌, drop, length, take};
ghost use Rattle.std.specs.Prelude.{IfSome, IfOk, OnOk, OnErr, IsTrue, Some};
ghost use Rattle.std.specs.List.{position};
ghost use Rattle.console.specs.Lines.{has_feed, is_feed_byte, line_of, HasWishText};
ghost use Rattle.console.specs.Steps.{ContinuesLines, GivesLines, FirstHasText, LeavesFew};
ghost use Rattle.console.specs.Steps.{LineTakesBytes, StepsLine, first_line};
ghost use Rattle.console.specs.declared.line.Line.{Line};

use crate::Line;
use crate::line::{MOST_BYTES, read_line};
use std::alloc::Global;
use std::marker::Model;
use td_base::NoMemory;

/// The bytes from an operator that no line was made of yet. Contracts see these bytes.
#[derive(Drop)]
pub struct Lines {
    bytes: Vec<u8>,
    taken: usize,
}

impl Model for Lines {
    ghost use Rattle.std.specs.Prelude.{List, ℕ, ◌≤◌, drop, length};

    ghost Value = { List ℕ };

    ghost view = { λ l. drop l.taken l.bytes.items };

    ghost invariant = { λ l. l.taken ≤ length l.bytes.items };
}

impl Lines {
    /// No bytes. It allocates no memory yet, and grows by the allocator.
    pub fn new(alloc: Global) -> Lines
        ensures { result ≡ [] }
    {
        Lines {
            bytes: Vec::new(alloc),
            taken: 0,
        }
    }

    /// How many bytes are held.
    pub fn held(&self) -> usize
        ensures { result ≡ length self.now }
    {
        self.bytes.len() - self.taken
    }

    /// Appends a piece to what is held.
    pub fn feed(&mut self, piece: &[u8]) -> Result<(), NoMemory>
        ensures ok { OnOk result (self.new ≡ self.old ++ piece.now) }
        ensures err { OnErr result (self.new ≡ self.old) }
        ensures cutting { OnOk result ((all : List ℕ) (given : List Line)
            → GivesLines all given self.old → GivesLines (all ++ piece.now) given self.new) }
    {
        self.bytes.extend_from_slice(piece)?;
        Ok(())
    }

    /// Removes the first line from what is held and returns it, or `None` exactly when no line feed
    /// is held. Then at most 1,101 bytes stay. Only a line `install DIR` or `watch under TEXT`
    /// allocates memory.
    pub fn next(&mut self) -> Result<Option<Line>, NoMemory>
        ensures steps { IfOk result (λ line. StepsLine self.old line self.new) }
        ensures err { OnErr result (self.new ≡ self.old) }
        ensures memory { OnErr result (FirstHasText self.old) }

        // Over all the bytes that were fed, with the lines given so far.
        ensures cutting { IfOk result (λ line. (all : List ℕ) (given : List Line)
            → GivesLines all given self.old → ContinuesLines all given line self.new) }

        // What a caller that feeds and asks in turn needs of each answer.
        ensures fewer { IfOk result (LineTakesBytes self.old self.new) }
        ensures few { IfOk result (LeavesFew self.new) }
    {
        self.step()
    }

    /// Drops the first line without parsing it. It allocates no memory.
    pub fn pass_over(&mut self)
        requires { IsTrue (has_feed self.old) }
        ensures steps { StepsLine self.old (Some (first_line self.old)) self.new }

        // Over all the bytes that were fed, with the lines given so far.
        ensures cutting { (all : List ℕ) (given : List Line)
            → GivesLines all given self.old
            → GivesLines all (given ++ first_line self.old ∷ []) self.new }
        ensures fewer { length self.new < length self.old }
    {
        let len = self.first_feed().unwrap();
        self.take_line(len);
    }

    /// Like `next`, by the position of the first line feed.
    fn step(&mut self) -> Result<Option<Line>, NoMemory>
        ensures steps { IfOk result (λ line. StepsLine self.old line self.new) }
        ensures err { OnErr result (self.new ≡ self.old) }
        ensures memory { OnErr result (FirstHasText self.old) }
    {
        let Some(len) = self.first_feed() else {
            self.keep_first(MOST_BYTES + 1);
            return Ok(None);
        };
        let line = self.read_first(len)?;
        self.take_line(len);
        Ok(Some(line))
    }

    /// The position of the first line feed, if one exists.
    fn first_feed(&self) -> Option<usize>
        ensures place { result ≡ position is_feed_byte self.now }
        ensures inside { IfSome result (λ at. at < length self.now) }
    {
        self.as_slice().iter().position(|&byte| byte == b'\n')
    }

    /// Parses the first `len` bytes as a line. It allocates memory only for a line that owns a
    /// text.
    fn read_first(&self, len: usize) -> Result<Line, NoMemory>
        requires { len ≤ length self.now }
        ensures found { IfOk result (λ line. line ≡ line_of (take len self.now)) }
        ensures memory { OnErr result (HasWishText (line_of (take len self.now))) }
    {
        read_line(*self.bytes.allocator(), &self.as_slice()[..len])
    }

    /// The bytes that are held.
    fn as_slice(&self) -> &[u8]
        ensures { result.now ≡ self.now }
    {
        &self.bytes[self.taken..]
    }

    /// Removes a line of `len` bytes and its line feed, and moves no byte.
    fn take_line(&mut self, len: usize)
        requires { len < length self.old }
        ensures { self.new ≡ drop (len + 1) self.old }
    {
        self.taken = self.taken + len + 1;
    }

    /// Keeps the first `most` bytes of those held, and drops all others.
    fn keep_first(&mut self, most: usize)
        ensures { self.new ≡ take most self.old }
    {
        let left = self.bytes.len() - self.taken;
        self.bytes.copy_within(self.taken.., 0);
        self.bytes.truncate(left.min(most));
        self.taken = 0;
    }
}
