//! States of local time, and laws.
use case_lines::{Answer, CaseFault, Row};
use std::alloc::Global;
use td_base::laws;
use td_civil::{
    Local, Name, bounds_are, is_spelled, is_text_of, one_moment, one_text, reads_back, same_states,
    some_year, years_apart,
};

/// `state OFFSET NAME`: whether the copy of a state equals it, and is the same by `is_same`. Also
/// whether the state in daylight saving time is the same.
pub fn state(alloc: Global, row: &Row) -> Answer {
    let (state, other) = (local(row, false)?, local(row, true)?);
    let copy = state.copy();
    let (is_copied, is_same) = (copy == state, copy.is_same(&state));
    let is_other = copy.is_same(&other);
    Ok(format!(in alloc; "{is_copied}, {is_same}, {is_other}")?.into_bytes())
}

fn local(row: &Row, dst: bool) -> Result<Local, CaseFault> {
    let (offset, text) = (row.signed_number(0)?, row.word(1)?);
    let offset = i32::try_from(offset).ok().ok_or(CaseFault::Strange)?;
    if text.len() > 32 {
        return Err(CaseFault::Strange);
    }
    let mut name = Name::new();
    name.append(text);
    Ok(Local { offset, dst, name })
}

/// `laws`: shows that each law can be called.
pub fn laws(alloc: Global) -> Answer {
    laws::reads_a_prefix();
    laws::names_are_plain();
    laws::sources_go_on();
    laws::sinks_go_on();
    laws::stores_go_on();
    laws::conns_go_on();
    bounds_are();
    one_text();
    one_moment();
    is_text_of();
    is_spelled();
    reads_back();
    same_states();
    years_apart();
    some_year();
    case_lines::bytes(alloc, b"called")
}
