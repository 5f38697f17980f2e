//! Texts of several words, and answers that show whether a cut matters.
use case_lines::{Answer, AnswerBuilder};
use std::alloc::Global;

/// The words joined by blanks: the text that they were cut from.
pub fn join_words(alloc: Global, words: &[Vec<u8>]) -> Answer {
    let mut text = AnswerBuilder::new(alloc);
    for (at, word) in words.iter().enumerate() {
        if at > 0 {
            text.add_bytes(b" ");
        }
        text.add_bytes(word.as_slice());
    }
    text.finish()
}

/// The answer for a text, if it does not depend on the size of its pieces.
#[derive(Drop)]
pub struct Same {
    first: Answer,
    /// The first size of pieces that gives another answer.
    differing: Option<usize>,
}

impl Same {
    /// Starts with the answer for pieces of the first size.
    pub fn new(first: Answer) -> Same {
        Same {
            first,
            differing: None,
        }
    }

    /// Compares the answer for pieces of another size.
    pub fn compare(&mut self, size: usize, other: Answer) {
        if !is_same(&self.first, &other) {
            self.differing = self.differing.or(Some(size));
        }
    }

    /// The answer of all sizes, or the size of pieces that gives another one.
    pub fn answer(self, alloc: Global) -> Answer {
        match self.differing {
            None => self.first,
            Some(size) => differs(alloc, size),
        }
    }
}

fn is_same(first: &Answer, other: &Answer) -> bool {
    match (first, other) {
        (Ok(first), Ok(other)) => first.as_slice() == other.as_slice(),
        _ => false,
    }
}

/// The answer when pieces of this size give another result than those before.
fn differs(alloc: Global, size: usize) -> Answer {
    let mut builder = AnswerBuilder::new(alloc);
    builder.add_bytes(b"another answer in pieces of ");
    builder.add_debug(&size);
    builder.finish()
}
