//! Slim zone files made from plans.
use case_lines::{Answer, CaseFault, Row, signed_number};
use std::alloc::Global;
use td_base::texts;
use tzif_reader::{Plan, slim};

/// `slim TIMES NUMBERS TYPES DESIGNATIONS LEAPS STANDARD UT FOOTER`: the file of a plan. Times,
/// types and leap lines are separated by commas. A type is `OFFSET:FLAG:PLACE`, and a leap line
/// `TIME:CORRECTION`. A dash means none.
pub fn slim_file(alloc: Global, row: &Row) -> Answer {
    let (times, types, leaps) = (row.word(0)?, row.word(2)?, row.word(4)?);
    let times = self::times(alloc, times)?;
    let types = self::types(alloc, types)?;
    let leaps = leap_lines(alloc, leaps)?;
    slim_of(
        alloc,
        row,
        times.as_slice(),
        types.as_slice(),
        leaps.as_slice(),
    )
}

/// The file of a plan with these lists.
fn slim_of(
    alloc: Global,
    row: &Row,
    times: &[i64],
    types: &[(i32, u8, u8)],
    leaps: &[(i64, i32)],
) -> Answer {
    let plan = Plan {
        times,
        numbers: row.word(1)?,
        types,
        designations: row.word(3)?,
        leaps,
        standard: row.word(5)?,
        ut: row.word(6)?,
        footer: row.word(7)?,
    };
    Ok(slim(alloc, &plan)?.into_vec())
}

fn times(alloc: Global, word: &[u8]) -> Result<Vec<i64>, CaseFault> {
    let mut times = Vec::new(alloc);
    if word != b"-".as_slice() {
        for piece in word.split(|byte| *byte == b',') {
            times.push(signed_number(piece)?)?;
        }
    }
    Ok(times)
}

fn types(alloc: Global, word: &[u8]) -> Result<Vec<(i32, u8, u8)>, CaseFault> {
    let mut types = Vec::new(alloc);
    for piece in word.split(|byte| *byte == b',') {
        types.push(one_type(piece)?)?;
    }
    Ok(types)
}

fn one_type(text: &[u8]) -> Result<(i32, u8, u8), CaseFault> {
    let (offset, rest) = texts::cut(text, b':');
    let (flag, place) = texts::cut(rest.unwrap_or(&[]), b':');
    Ok((short(offset)?, byte(flag)?, byte(place.unwrap_or(&[]))?))
}

/// The leap lines of a word.
pub fn leap_lines(alloc: Global, word: &[u8]) -> Result<Vec<(i64, i32)>, CaseFault> {
    let mut lines = Vec::new(alloc);
    if word != b"-".as_slice() {
        for piece in word.split(|byte| *byte == b',') {
            lines.push(leap_line(piece)?)?;
        }
    }
    Ok(lines)
}

fn leap_line(text: &[u8]) -> Result<(i64, i32), CaseFault> {
    let (time, correction) = texts::cut(text, b':');
    Ok((signed_number(time)?, short(correction.unwrap_or(&[]))?))
}

fn short(text: &[u8]) -> Result<i32, CaseFault> {
    i32::try_from(signed_number(text)?)
        .ok()
        .ok_or(CaseFault::Strange)
}

fn byte(text: &[u8]) -> Result<u8, CaseFault> {
    u8::try_from(signed_number(text)?)
        .ok()
        .ok_or(CaseFault::Strange)
}
