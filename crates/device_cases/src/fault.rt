//! Refusals by the system.
use case_lines::CaseFault;
use std::io::{Error, ErrorKind};

/// A call that a case needs was refused: the case has no result.
pub fn fault_of_call(error: Error) -> CaseFault {
    match error.kind() {
        ErrorKind::OutOfMemory => CaseFault::NoMemory,
        _ => CaseFault::Strange,
    }
}
