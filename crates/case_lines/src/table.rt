ghost use Rattle.std.specs.Prelude.{◌≡◌, ◌↔◌, IfOk, IsNone, IsOkAnd, is_none};
ghost use Rattle.case_lines.specs.Judging.{IsExpected, after_row};

use crate::texts::cut;
use crate::{Answer, CaseFault, Row, Tally, Texts, escape};
use std::alloc::{AllocError, Global};
use std::marker::Model;

/// A table that is read line by line.
#[derive(Drop)]
pub struct Table {
    alloc: Global,
    texts: Texts,
    tally: Tally,
}

impl Model for Table {
    ghost use Rattle.case_lines.specs.declared.tally.Tally.{Tally};

    ghost Value = { Tally };

    ghost view = { λ t. t.tally };
}

impl Table {
    /// A table before its first line.
    pub fn new(alloc: Global) -> Table
        ensures { result ≡ record { cases = 0; right = 0 } }
    {
        Table {
            alloc,
            texts: Texts::new(alloc),
            tally: Tally::new(),
        }
    }

    /// Reads the next line. `None` if it is empty, a comment or names a text. A line that cannot be
    /// read is a row of the empty kind.
    pub fn row(&mut self, line: &str) -> Result<Option<Row>, AllocError>
        ensures { self.new ≡ self.old }
    {
        match self.read(line) {
            Ok(row) => Ok(row),
            Err(CaseFault::NoMemory) => Err(AllocError),
            Err(CaseFault::Strange) => Ok(Some(Row::strange(self.alloc, line)?)),
        }
    }

    fn read(&mut self, line: &str) -> Result<Option<Row>, CaseFault>
        ensures { self.new ≡ self.old }
    {
        let (word, rest) = cut(line);
        if word.is_empty() || word == "#" || self.texts.define(word, rest)? {
            return Ok(None);
        }
        Ok(Some(Row::read(self.alloc, &self.texts, line)?))
    }

    /// Counts a row that has an expected answer. It returns the message to print if the answer is
    /// another one.
    pub fn judge(&mut self, row: &Row, answer: Answer) -> Result<Option<String>, AllocError>
        ensures report { IfOk result (λ report.
            IsNone report ↔ IsOkAnd answer (λ given. IsExpected row.now given.items)) }
        ensures counted { IfOk result (λ report.
            self.new ≡ after_row self.old row.now (is_none report)) }
    {
        let report = match answer {
            Ok(answer) => difference(self.alloc, row, answer.as_slice())?,
            Err(CaseFault::NoMemory) => return Err(AllocError),
            Err(CaseFault::Strange) => Some(strange(self.alloc, row)?),
        };
        if row.expected.is_some() {
            self.tally.count(report.is_none());
        }
        Ok(report)
    }

    /// The number of cases and of right answers so far.
    pub fn tally(&self) -> Tally
        ensures { result ≡ self.now }
    {
        self.tally
    }
}

/// The message for an answer that is not the expected one; `None` for the expected one.
fn difference(alloc: Global, row: &Row, answer: &[u8]) -> Result<Option<String>, AllocError>
    ensures { IfOk result (λ report. IsNone report ↔ IsExpected row.now answer.now) }
{
    let expected = match &row.expected {
        Some(expected) => expected.as_slice(),
        None => b"",
    };
    if answer == expected {
        return Ok(None);
    }
    let (title, given) = (row.title.as_str(), escape(alloc, answer)?);
    let expected = escape(alloc, expected)?;
    Ok(Some(format!(in alloc; "{title}: {expected} is expected, and {given} is given")?))
}

/// The message for a row that cannot be read.
fn strange(alloc: Global, row: &Row) -> Result<String, AllocError> {
    let title = row.title.as_str();
    format!(in alloc; "strange line: {title}")
}
