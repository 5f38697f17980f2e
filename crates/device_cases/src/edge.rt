//! The arguments of a command line, and the message on standard error for a run that failed.
ghost use Rattle.std.specs.Prelude.{◌≤◌, IfOk, length};

use case_lines::{Answer, AnswerBuilder, CaseFault, Row, display_text};
use devices::{ListenFailure, LookFailure};
use process_edge::{Complaint, Failures, collect};
use std::alloc::Global;
use std::env::FillError;
use std::io::ErrorKind;
use std::rt::Env;
use td_base::Bytes;

/// A command line: the name of a program, and the words of a row.
#[derive(Drop)]
struct CommandLine<'a> {
    words: &'a [Vec<u8>],
}

impl Env for CommandLine<'_> {
    fn arg(&self, i: usize, buf: &mut [u8]) -> Result<usize, FillError> {
        if i == 0 {
            return fill(b"program", buf);
        }
        match self.words.get(i - 1) {
            Some(word) => fill(word.as_slice(), buf),
            None => Err(FillError::NotPresent),
        }
    }

    fn var(&self, _name: &str, _buf: &mut [u8]) -> Result<usize, FillError> {
        Err(FillError::NotPresent)
    }

    fn var_at(&self, _i: usize, _buf: &mut [u8]) -> Result<usize, FillError> {
        Err(FillError::NotPresent)
    }
}

/// Copies a word to the front of the buffer, if it fits.
fn fill(word: &[u8], buf: &mut [u8]) -> Result<usize, FillError>
    ensures { IfOk result (λ count. count ≤ length buf.new) }
{
    if buf.len() < word.len() {
        return Err(FillError::TooLong);
    }
    buf[..word.len()].copy_from_slice(word);
    Ok(word.len())
}

/// `words WORD..`: the arguments that are collected from this command line, each in `<` and `>`.
pub fn words(alloc: Global, row: &Row) -> Answer {
    let line = CommandLine { words: row.words() };
    let words = collect(alloc, &line)?;
    let mut builder = AnswerBuilder::new(alloc);
    for word in &words {
        builder.add_bytes(b"<");
        builder.add_bytes(word.as_slice());
        builder.add_bytes(b">");
    }
    builder.finish()
}

/// `complaint STATUS OBJECT..`: the message for a status when these objects failed, or `nothing`.
pub fn complaint(alloc: Global, row: &Row) -> Answer {
    let status = u8::try_from(row.number(0)?).ok().ok_or(CaseFault::Strange)?;
    let listener = listener(alloc, row)?;
    let file = file(alloc)?;
    message(alloc, status, failures(row, &file, &listener))
}

/// The failure of a file that cannot be read.
fn file(alloc: Global) -> Result<LookFailure, CaseFault> {
    Ok(LookFailure {
        path: Some(Bytes::from_slice(alloc, b"a/utc")?),
        kind: ErrorKind::PermissionDenied,
    })
}

/// The failure of a listener. Its address is known unless the row says `nameless`, and does not
/// resolve if the row says `nowhere`.
fn listener(alloc: Global, row: &Row) -> Result<ListenFailure, CaseFault> {
    let address = if fails(row, b"nameless") {
        None
    } else {
        Some(Bytes::from_slice(alloc, b"127.0.0.1:80")?)
    };
    let kind = if fails(row, b"nowhere") {
        ErrorKind::NotFound
    } else {
        ErrorKind::AddrInUse
    };
    Ok(ListenFailure { address, kind })
}

/// The failures of the objects that the row names.
fn failures<'a>(row: &Row, file: &'a LookFailure, listener: &'a ListenFailure) -> Failures<'a> {
    Failures {
        store: failure_of(row, b"store", file),
        input: input(row),
        output: failure_of(row, b"output", ErrorKind::BrokenPipe),
        network: failure_of(row, b"network", listener),
        door: failure_of(row, b"door", ErrorKind::ConnectionAborted),
        upstream: failure_of(row, b"upstream", ErrorKind::ConnectionRefused),
    }
}

/// Why the input failed, if the row names it. For `closed` it is a reason without a word.
fn input(row: &Row) -> Option<ErrorKind> {
    if fails(row, b"closed") {
        Some(ErrorKind::Uncategorized)
    } else {
        failure_of(row, b"input", ErrorKind::TimedOut)
    }
}

/// The failure of an object, if the row names it.
fn failure_of<T: Copy>(row: &Row, object: &[u8], failure: T) -> Option<T> {
    if fails(row, object) {
        Some(failure)
    } else {
        None
    }
}

/// Whether a row names an object.
fn fails(row: &Row, object: &[u8]) -> bool {
    for word in row.words() {
        if word.as_slice() == object {
            return true;
        }
    }
    false
}

/// The message for a status.
fn message(alloc: Global, status: u8, failures: Failures<'_>) -> Answer {
    match Complaint::of(status, failures) {
        Some(complaint) => display_text(alloc, &complaint),
        None => case_lines::bytes(alloc, b"nothing"),
    }
}
