use std::alloc::Global;
use std::env::FillError;
use std::rt::Env;
use td_base::{Bytes, NoMemory};

/// The size of the first buffer for an argument, in bytes.
const ROOM: usize = 1024;

/// The command-line arguments after the program's name, byte for byte.
pub fn collect<E: Env>(alloc: Global, env: &E) -> Result<Vec<Bytes>, NoMemory> {
    let mut words = Vec::new(alloc);
    for at in 1..usize::MAX {
        match read_word(alloc, env, at)? {
            Some(word) => words.push(word)?,
            None => break,
        }
    }
    Ok(words)
}

/// The argument at an index, or `None` after the last one. If the argument is longer than the
/// buffer, a buffer of twice the size is tried.
fn read_word<E: Env>(alloc: Global, env: &E, at: usize) -> Result<Option<Bytes>, NoMemory> {
    let mut size = ROOM;
    for _ in 0..usize::BITS {
        let mut room = vec![in alloc; 0u8; size]?;
        match env.arg(at, &mut room) {
            Ok(length) => return Ok(Some(Bytes::from_slice(alloc, &room[..length])?)),
            Err(FillError::NotPresent) => return Ok(None),
            Err(FillError::TooLong) => size = size.saturating_add(size),
        }
    }
    Err(NoMemory)
}
