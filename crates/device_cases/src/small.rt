use case_lines::{CaseFault, Row};

/// The number of 32 bits at this position of a row.
pub fn small(row: &Row, at: usize) -> Result<u32, CaseFault> {
    let number = row.number(at)?;
    if number > u32::MAX as u64 {
        return Err(CaseFault::Strange);
    }
    Ok(number as u32)
}
