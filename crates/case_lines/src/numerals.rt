use crate::CaseFault;
use hex::FromHexError;
use std::alloc::Global;
use std::str;
use td_base::read_decimal;

/// Reads a word as a decimal number.
pub fn number(word: &[u8]) -> Result<u64, CaseFault> {
    read_decimal(word).ok_or(CaseFault::Strange)
}

/// Reads a word as decimal numbers with commas between them; a dash means no numbers.
pub fn numbers(alloc: Global, word: &[u8]) -> Result<Vec<u64>, CaseFault> {
    let mut all = Vec::new(alloc);
    if word != b"-".as_slice() {
        for piece in word.split(|byte| *byte == b',') {
            all.push(number(piece)?)?;
        }
    }
    Ok(all)
}

/// Reads a word as a decimal number, with a `-` if it is below zero.
pub fn signed_number(word: &[u8]) -> Result<i64, CaseFault> {
    let Ok(text) = str::from_utf8(word) else {
        return Err(CaseFault::Strange);
    };
    match text.parse::<i64>() {
        Ok(n) => Ok(n),
        Err(_) => Err(CaseFault::Strange),
    }
}

/// Reads a word as hex digits, two per byte.
pub fn hex_bytes(alloc: Global, word: &[u8]) -> Result<Vec<u8>, CaseFault> {
    match hex::decode(alloc, word) {
        Ok(bytes) => Ok(bytes),
        Err(FromHexError::OutOfMemory) => Err(CaseFault::NoMemory),
        Err(_) => Err(CaseFault::Strange),
    }
}
