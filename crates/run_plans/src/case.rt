//! A case: a run, and how it must end.
use crate::ending::{RunResult, is_of_ending};
use crate::exchanges::are_met;
use crate::outside::{ROOM, Sizes, calls_with, sink_of, source_of};
use crate::plan::{NetworkPlan, is_of_network, push_call};
use crate::trial::Trial;
use case_lines::{CaseFault, Texts, number};
use std::alloc::{AllocError, Global};
use td_base::{Bytes, Faulty, MemorySink, MemorySource, NoMemory};

/// A run, and how it must end.
#[derive(Drop)]
pub struct Case {
    pub title: String,
    pub words: Vec<Bytes>,
    pub input: Vec<u8>,
    pub network: NetworkPlan,
    /// The numbers of the calls that fail, from 1, for each object.
    pub store_failing: Vec<u64>,
    pub input_failing: Vec<u64>,
    pub output_failing: Vec<u64>,
    pub spawner_failing: Vec<u64>,
    /// The most bytes of each call.
    pub sizes: Sizes,
    /// The room of the output, in bytes.
    pub room: usize,
    pub ending: RunResult,
}

impl Case {
    /// A case of this title, without words, input and failing calls.
    pub fn new(alloc: Global, title: &str) -> Result<Case, AllocError> {
        Ok(Case {
            title: title.to_string(alloc)?,
            words: Vec::new(alloc),
            input: Vec::new(alloc),
            network: NetworkPlan::new(alloc),
            store_failing: Vec::new(alloc),
            input_failing: Vec::new(alloc),
            output_failing: Vec::new(alloc),
            spawner_failing: Vec::new(alloc),
            sizes: Sizes {
                read: ROOM,
                write: ROOM,
            },
            room: ROOM,
            ending: RunResult::new(alloc),
        })
    }

    /// Applies a line of the table.
    pub fn add(
        &mut self,
        alloc: Global,
        texts: &Texts,
        word: &str,
        rest: &str,
    ) -> Result<(), CaseFault> {
        if is_of_ending(word) {
            self.ending.add(alloc, texts, word, rest)
        } else if is_of_network(word) {
            self.network.add(alloc, texts, word, rest)
        } else {
            self.add_own(alloc, texts, word, rest)
        }
    }

    /// Applies a line that is not about the network or the ending.
    fn add_own(
        &mut self,
        alloc: Global,
        texts: &Texts,
        word: &str,
        rest: &str,
    ) -> Result<(), CaseFault> {
        match word {
            "word" => push_word(&mut self.words, texts, rest),
            "words" => push_words(alloc, &mut self.words, rest),
            "input" => texts.append(rest.as_bytes(), &mut self.input),
            "room" => read_size(&mut self.room, rest),
            "read" => read_size(&mut self.sizes.read, rest),
            "write" => read_size(&mut self.sizes.write, rest),
            _ => self.add_failing(word, rest),
        }
    }

    /// Applies a line with the number of a call that fails.
    fn add_failing(&mut self, word: &str, call: &str) -> Result<(), CaseFault> {
        match word {
            "fail-store" => push_call(&mut self.store_failing, call),
            "fail-input" => push_call(&mut self.input_failing, call),
            "fail-output" => push_call(&mut self.output_failing, call),
            "fail-start" => push_call(&mut self.spawner_failing, call),
            _ => Err(CaseFault::Strange),
        }
    }

    /// Whether a run ended as it must.
    pub fn is_met_by(&self, trial: Trial, ending: &RunResult) -> bool {
        let wanted = &self.ending;
        ending.status == self.wanted_status(trial)
            && ending.output.as_slice() == self.wanted_output(trial)
            && ending.asked == wanted.asked
            && ending.begun == wanted.begun
            && ending.doors == wanted.doors
            && ending.reached == wanted.reached
            && self.meets_exchanges(trial, ending)
    }

    /// Whether the exchanges of a run are those that it must make.
    fn meets_exchanges(&self, trial: Trial, ending: &RunResult) -> bool {
        match (&self.ending.exchanges, &ending.exchanges) {
            (Some(wanted), Some(seen)) => {
                are_met(wanted.as_slice(), seen.as_slice(), self.wanted_end(trial))
            }
            (None, None) => true,
            _ => false,
        }
    }

    /// The position in the output of the last exchange of a run. A line that is read is answered,
    /// so when not all of the input is read, something is written after each exchange.
    fn wanted_end(&self, trial: Trial) -> usize {
        let end = self.wanted_output(trial).len();
        match trial {
            Trial::Plain | Trial::Cut(_) | Trial::Unwritten(_) => end,
            Trial::Unread(_) | Trial::Ended(_) => end.saturating_sub(1),
        }
    }

    /// The status of a run, which is that of the case. It is 4 instead of 0 when a write failed,
    /// and 3 when a read of the input failed.
    fn wanted_status(&self, trial: Trial) -> u8 {
        match trial {
            Trial::Unwritten(_) if self.ending.status == 0 => 4,
            Trial::Unread(_) => 3,
            _ => self.ending.status,
        }
    }

    /// The output of a run. It ends before a write that failed. When not all of the input was read,
    /// it has one line, and one more for each whole line that was read.
    fn wanted_output(&self, trial: Trial) -> &[u8] {
        let whole = self.ending.output.as_slice();
        match trial {
            Trial::Plain | Trial::Cut(_) => whole,
            Trial::Unwritten(number) => prefix(whole, number.saturating_sub(1)),
            Trial::Unread(number) | Trial::Ended(number) => {
                let read = prefix(self.input.as_slice(), number.saturating_sub(1));
                first_lines(whole, count_lines(read).saturating_add(1))
            }
        }
    }

    /// How often a line runs the case.
    pub fn count_runs(&self, how: &str) -> usize {
        match how {
            "cut" | "unread" | "ended" => self.input.len(),
            "unwritten" => self.ending.output.len(),
            _ => 1,
        }
    }

    /// The input of a run.
    pub fn source(&self, alloc: Global, trial: Trial) -> Result<Faulty<MemorySource>, NoMemory> {
        let (first, size) = self.read_sizes(trial);
        let failing = calls_with(alloc, &self.input_failing, trial.failing_read())?;
        let source = source_of(alloc, self.readable(trial), first, size)?;
        Ok(Faulty::new(source, failing))
    }

    /// The most bytes of the first read of a run, and of those after it.
    fn read_sizes(&self, trial: Trial) -> (usize, usize) {
        match trial {
            Trial::Plain | Trial::Unwritten(_) | Trial::Ended(_) => {
                (self.sizes.read, self.sizes.read)
            }
            Trial::Cut(number) => (number, self.sizes.read),
            Trial::Unread(_) => (1, 1),
        }
    }

    /// The bytes of the input of a run.
    fn readable(&self, trial: Trial) -> &[u8] {
        let whole = self.input.as_slice();
        match trial {
            Trial::Ended(number) => prefix(whole, number.saturating_sub(1)),
            _ => whole,
        }
    }

    /// The output of a run.
    pub fn sink(&self, alloc: Global, trial: Trial) -> Result<Faulty<MemorySink>, NoMemory> {
        let failing = calls_with(alloc, &self.output_failing, trial.failing_write())?;
        let size = match trial {
            Trial::Unwritten(_) => 1,
            _ => self.sizes.write,
        };
        let sink = sink_of(alloc, self.room, size, self.ending.output.len())?;
        Ok(Faulty::new(sink, failing))
    }
}

/// Reads a number of bytes.
fn read_size(size: &mut usize, word: &str) -> Result<(), CaseFault> {
    *size = number(word.as_bytes())? as usize;
    Ok(())
}

/// Adds the word of a line.
fn push_word(words: &mut Vec<Bytes>, texts: &Texts, word: &str) -> Result<(), CaseFault> {
    let word = Bytes::from(texts.meaning(word)?);
    words.push(word)?;
    Ok(())
}

/// Adds the words of a line.
fn push_words(alloc: Global, words: &mut Vec<Bytes>, line: &str) -> Result<(), CaseFault> {
    for word in line.split(' ') {
        push_plain(alloc, words, word.as_bytes())?;
    }
    Ok(())
}

fn push_plain(alloc: Global, words: &mut Vec<Bytes>, word: &[u8]) -> Result<(), CaseFault> {
    let word = Bytes::from_slice(alloc, word)?;
    words.push(word)?;
    Ok(())
}

/// The first `count` bytes, or all if they are fewer.
fn prefix(bytes: &[u8], count: usize) -> &[u8] {
    bytes.get(..count).unwrap_or(bytes)
}

/// How many whole lines the bytes have.
fn count_lines(bytes: &[u8]) -> usize {
    let mut count: usize = 0;
    for byte in bytes {
        if *byte == b'\n' {
            count = count.saturating_add(1);
        }
    }
    count
}

/// The first lines of the bytes, this many.
fn first_lines(bytes: &[u8], lines: usize) -> &[u8] {
    let mut left = lines;
    for (at, byte) in bytes.iter().enumerate() {
        if left == 0 {
            return prefix(bytes, at);
        }
        if *byte == b'\n' {
            left -= 1;
        }
    }
    bytes
}
