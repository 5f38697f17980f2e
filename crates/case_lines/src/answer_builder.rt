use crate::{Answer, CaseFault};
use std::alloc::Global;
use std::fmt;
use td_base::NoMemory;

/// An answer that is built in pieces. A fault of a piece is reported at the end, so that no call
/// before it can fail.
#[derive(Drop)]
pub struct AnswerBuilder {
    alloc: Global,
    text: Vec<u8>,
    fault: Option<CaseFault>,
}

impl AnswerBuilder {
    /// No pieces yet.
    pub fn new(alloc: Global) -> AnswerBuilder {
        AnswerBuilder {
            alloc,
            text: Vec::new(alloc),
            fault: None,
        }
    }

    /// Appends bytes.
    pub fn add_bytes(&mut self, bytes: &[u8]) {
        if self.text.extend_from_slice(bytes).is_err() {
            self.fail(CaseFault::NoMemory);
        }
    }

    /// Appends a value as `{:?}` writes it.
    pub fn add_debug<T: fmt::Debug>(&mut self, value: &T) {
        match format!(in self.alloc; "{value:?}") {
            Ok(text) => self.add_bytes(text.as_bytes()),
            Err(_) => self.fail(CaseFault::NoMemory),
        }
    }

    /// Appends a value as `{}` writes it.
    pub fn add_display<T: fmt::Display>(&mut self, value: &T) {
        match format!(in self.alloc; "{value}") {
            Ok(text) => self.add_bytes(text.as_bytes()),
            Err(_) => self.fail(CaseFault::NoMemory),
        }
    }

    /// Appends the answer of a call, and a bar.
    pub fn add_answer(&mut self, given: Answer) {
        match given {
            Ok(given) => {
                self.add_bytes(given.as_slice());
                self.add_bytes(b"|");
            }
            Err(fault) => self.fail(fault),
        }
    }

    /// Records the result of a call that adds nothing to the answer.
    pub fn add_outcome(&mut self, outcome: Result<(), NoMemory>) {
        if outcome.is_err() {
            self.fail(CaseFault::NoMemory);
        }
    }

    /// Records a fault. The first one is kept.
    pub fn fail(&mut self, fault: CaseFault) {
        self.fault = self.fault.or(Some(fault));
    }

    /// The whole answer, or the first fault.
    pub fn finish(self) -> Answer {
        match self.fault {
            None => Ok(self.text),
            Some(fault) => Err(fault),
        }
    }
}
