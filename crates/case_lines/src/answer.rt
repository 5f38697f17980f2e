use crate::CaseFault;
use std::alloc::Global;
use std::fmt;

/// The answer to a row.
pub type Answer = Result<Vec<u8>, CaseFault>;

/// An answer of the value as `{:?}` prints it.
pub fn debug_text<T: fmt::Debug>(alloc: Global, value: &T) -> Answer {
    Ok(format!(in alloc; "{value:?}")?.into_bytes())
}

/// An answer of the value as `{}` prints it.
pub fn display_text<T: fmt::Display>(alloc: Global, value: &T) -> Answer {
    Ok(value.to_string(alloc)?.into_bytes())
}

/// An answer of these bytes.
pub fn bytes(alloc: Global, bytes: &[u8]) -> Answer {
    Ok(Vec::from_slice(alloc, bytes)?)
}
