use crate::failures::Failures;
use std::fmt::{Display, Formatter};
use std::io::{Eprint, ErrorKind};
use std::{fmt, str};
use td_base::Bytes;

/// The exit status when memory ran out.
pub const OUT_OF_MEMORY: u8 = 70;

/// The exit status when a file or the input could not be read.
const READ_FAULT: u8 = 3;

/// The exit status when the output could not be written.
const WRITE_FAULT: u8 = 4;

/// The exit status when a worker could not be started.
const NOT_STARTED: u8 = 5;

/// The exit status when the network failed.
const NO_NETWORK: u8 = 6;

/// The exit status when the first sync of a mirror ended by a fault.
const NOT_SYNCED: u8 = 7;

/// What an operator reads when a run ended by an external failure: which file, stream or
/// address, and the system's message for the cause.
#[derive(Clone, Copy)]
pub enum Complaint<'a> {
    OutOfMemory,
    File(&'a str, ErrorKind),
    Input(ErrorKind),
    Output(ErrorKind),
    Worker,
    Address(&'a str, ErrorKind),
    Door(ErrorKind),
    Upstream(ErrorKind),
}

impl<'a> Complaint<'a> {
    /// The complaint for an exit status, from what failed. A status that reports no failure has
    /// none.
    ///
    /// If the input failed, it is named rather than a file. A run that ends by a file has not begun
    /// to read input, and a console continues after a file that could not be read.
    pub fn of(status: u8, failures: Failures<'a>) -> Option<Complaint<'a>> {
        match status {
            OUT_OF_MEMORY => Some(Complaint::OutOfMemory),
            READ_FAULT => of_reading(failures),
            WRITE_FAULT => Some(Complaint::Output(failures.output?)),
            NOT_STARTED => Some(Complaint::Worker),
            NO_NETWORK => of_network(failures),
            NOT_SYNCED => Some(Complaint::Upstream(failures.upstream?)),
            _ => None,
        }
    }
}

/// What could not be read.
fn of_reading(failures: Failures<'_>) -> Option<Complaint<'_>> {
    if let Some(kind) = failures.input {
        return Some(Complaint::Input(kind));
    }
    let failure = failures.store?;
    Some(Complaint::File(text_of(&failure.path, "a file"), failure.kind))
}

/// Why no connections are accepted.
fn of_network(failures: Failures<'_>) -> Option<Complaint<'_>> {
    if let Some(kind) = failures.door {
        return Some(Complaint::Door(kind));
    }
    let failure = failures.network?;
    Some(Complaint::Address(text_of(&failure.address, "an address"), failure.kind))
}

/// The name of what failed, if it can be printed.
fn text_of<'a>(name: &'a Option<Bytes>, otherwise: &'static str) -> &'a str {
    match name {
        Some(name) => str::from_utf8(name.as_slice()).unwrap_or("a name that is not UTF-8"),
        None => otherwise,
    }
}

/// Reports on standard error what failed, if the exit status reports a failure.
pub fn complain<R: Eprint>(rt: &R, status: u8, failures: Failures<'_>) {
    if let Some(complaint) = Complaint::of(status, failures) {
        let _ = eprintln!(rt; "tzdistd: {complaint}");
    }
}

impl Display for Complaint<'_> {
    fn fmt<W: fmt::Write>(&self, f: &mut Formatter<W>) -> fmt::Result {
        match *self {
            Complaint::OutOfMemory => f.write_str("out of memory"),
            Complaint::File(path, kind) => write!(f, "cannot read {path}: {}", Reason(kind)),
            Complaint::Input(kind) => write!(f, "cannot read standard input: {}", Reason(kind)),
            Complaint::Output(kind) => write!(f, "cannot write standard output: {}", Reason(kind)),
            Complaint::Worker => f.write_str("cannot start a worker"),
            Complaint::Address(address, ErrorKind::NotFound) => {
                write!(f, "cannot listen at {address}: its name does not resolve")
            }
            Complaint::Address(address, kind) => write!(f, "cannot listen at {address}: {kind}"),
            Complaint::Door(kind) => write!(f, "cannot accept connections: {kind}"),
            Complaint::Upstream(kind) => write!(f, "cannot ask the other server: {kind}"),
        }
    }
}

/// The system's message for why a file or a stream failed, if it has one.
#[derive(Clone, Copy)]
struct Reason(ErrorKind);

impl Display for Reason {
    fn fmt<W: fmt::Write>(&self, f: &mut Formatter<W>) -> fmt::Result {
        match self.0 {
            ErrorKind::Uncategorized => f.write_str("it is closed, or its device failed"),
            kind => write!(f, "{kind}"),
        }
    }
}
