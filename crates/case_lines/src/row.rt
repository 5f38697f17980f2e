use crate::texts::cut;
use crate::{CaseFault, Texts, hex_bytes, number, signed_number};
use std::alloc::{AllocError, Global};
use std::marker::Model;
use std::str;

/// A row of a table, with its texts decoded. Contracts see the expected answer, if the row has one.
#[derive(Drop)]
pub struct Row {
    kind: String,
    words: Vec<Vec<u8>>,
    /// The line before the answer, as written in the table.
    pub(crate) title: String,
    /// The expected answer, if the row has one.
    pub(crate) expected: Option<Vec<u8>>,
}

impl Model for Row {
    ghost use Rattle.std.specs.Prelude.{List, ℕ, Option, option_map};

    ghost Value = { Option (List ℕ) };

    ghost view = { λ r. option_map (λ e. e.items) r.expected };
}

impl Row {
    /// Reads a line.
    pub(crate) fn read(alloc: Global, texts: &Texts, line: &str) -> Result<Row, CaseFault> {
        let (front, expected) = match line.split_once(" = ") {
            Some((front, answer)) => (front, Some(texts.meaning(answer)?)),
            None => (line, None),
        };
        let (kind, rest) = cut(front);
        let mut words = Vec::new(alloc);
        if front.len() > kind.len() {
            for word in rest.split(' ') {
                words.push(texts.meaning(word)?)?;
            }
        }
        Ok(Row {
            kind: kind.to_string(alloc)?,
            words,
            title: front.to_string(alloc)?,
            expected,
        })
    }

    /// A line that cannot be read, as a row of the empty kind.
    pub(crate) fn strange(alloc: Global, line: &str) -> Result<Row, AllocError> {
        Ok(Row {
            kind: String::new(alloc),
            words: Vec::new(alloc),
            title: line.to_string(alloc)?,
            expected: None,
        })
    }

    /// The first word as written in the table, which is the kind of the case.
    pub fn kind(&self) -> &str {
        self.kind.as_str()
    }

    /// The words after the first.
    pub fn words(&self) -> &[Vec<u8>] {
        self.words.as_slice()
    }

    /// The word at this index, from 0.
    pub fn word(&self, at: usize) -> Result<&[u8], CaseFault> {
        match self.words.get(at) {
            Some(word) => Ok(word.as_slice()),
            None => Err(CaseFault::Strange),
        }
    }

    /// The word at this index as a text.
    pub fn text(&self, at: usize) -> Result<&str, CaseFault> {
        match str::from_utf8(self.word(at)?) {
            Ok(text) => Ok(text),
            Err(_) => Err(CaseFault::Strange),
        }
    }

    /// The word at this index as a decimal number.
    pub fn number(&self, at: usize) -> Result<u64, CaseFault> {
        number(self.word(at)?)
    }

    /// The word at this index as a decimal number that may be below zero.
    pub fn signed_number(&self, at: usize) -> Result<i64, CaseFault> {
        signed_number(self.word(at)?)
    }

    /// The word at this index as bytes, written in hex digits.
    pub fn hex(&self, alloc: Global, at: usize) -> Result<Vec<u8>, CaseFault> {
        hex_bytes(alloc, self.word(at)?)
    }
}
