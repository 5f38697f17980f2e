use std::alloc::{AllocError, AllocFailed};
use td_base::NoMemory;
use thiserror::Error;

/// Why a line is not a case.
#[derive(Clone, Copy, Debug, PartialEq, Eq, Error)]
pub enum CaseFault {
    #[error("out of memory")]
    NoMemory,
    /// The kind of the case is unknown, or a word is missing or not of its form.
    #[error("strange line")]
    Strange,
}

impl From<NoMemory> for CaseFault {
    fn from(_: NoMemory) -> Self {
        CaseFault::NoMemory
    }
}

impl From<AllocError> for CaseFault {
    fn from(_: AllocError) -> Self {
        CaseFault::NoMemory
    }
}

impl<T: Drop> From<AllocFailed<T>> for CaseFault {
    fn from(_: AllocFailed<T>) -> Self {
        CaseFault::NoMemory
    }
}
