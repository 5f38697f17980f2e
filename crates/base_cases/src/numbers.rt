//! Digits and lengths, written and read.
use case_lines::{Answer, CaseFault, Row, debug_text};
use std::alloc::Global;
use td_base::{Bytes, put_decimal, put_hex, put_sized, read_decimal};

/// `decimal NUMBER`: the number in digits, after an `x`.
pub fn decimal(alloc: Global, row: &Row) -> Answer {
    let number = row.number(0)?;
    let mut out = Bytes::from_slice(alloc, b"x")?;
    put_decimal(&mut out, number)?;
    Ok(out.into_vec())
}

/// `hex BYTES`: their hex digits, after an `x`.
pub fn hex(alloc: Global, row: &Row) -> Answer {
    let bytes = row.word(0)?;
    let mut out = Bytes::from_slice(alloc, b"x")?;
    put_hex(&mut out, bytes)?;
    Ok(out.into_vec())
}

/// `sized BYTES`: their length and the bytes, after an `x`.
pub fn with_length(alloc: Global, row: &Row) -> Answer {
    let bytes = row.word(0)?;
    if bytes.len() > u32::MAX as usize {
        return Err(CaseFault::Strange);
    }
    let mut out = Bytes::from_slice(alloc, b"x")?;
    put_sized(&mut out, bytes)?;
    Ok(out.into_vec())
}

/// `read-decimal TEXT`: the number that it encodes.
pub fn read(alloc: Global, row: &Row) -> Answer {
    debug_text(alloc, &read_decimal(row.word(0)?))
}
