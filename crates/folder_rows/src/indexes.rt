//! Indexes of numbers.
use case_lines::{Answer, CaseFault, Row, debug_text, numbers};
use change_index::{ChangeIndex, index};
use std::alloc::Global;

/// `after NUMBERS NUMBER`: the entries of an index of NUMBERS that are above NUMBER.
pub fn after(alloc: Global, row: &Row) -> Answer {
    let index = index_of(alloc, row)?;
    debug_text(alloc, &index.after(place(row.number(1)?)?))
}

/// `positions-after NUMBERS NUMBER`: the positions of these.
pub fn positions(alloc: Global, row: &Row) -> Answer {
    let index = index_of(alloc, row)?;
    match index.positions_after(alloc, place(row.number(1)?)?) {
        Ok(positions) => debug_text(alloc, &positions.as_slice()),
        Err(_) => Err(CaseFault::NoMemory),
    }
}

/// The index of the numbers in the first word of a row.
fn index_of(alloc: Global, row: &Row) -> Result<ChangeIndex, CaseFault> {
    let mut places = Vec::new(alloc);
    for number in numbers(alloc, row.word(0)?)? {
        places.push(place(number)?)?;
    }
    match index(alloc, places.as_slice()) {
        Ok(index) => Ok(index),
        Err(_) => Err(CaseFault::NoMemory),
    }
}

/// A number as a place.
pub fn place(number: u64) -> Result<u32, CaseFault> {
    if number > u32::MAX as u64 {
        return Err(CaseFault::Strange);
    }
    Ok(number as u32)
}
