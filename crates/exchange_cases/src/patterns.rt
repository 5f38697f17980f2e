//! Patterns of names.
use case_lines::{Answer, AnswerBuilder, CaseFault, Row, debug_text, display_text};
use find_pattern::{BadPattern, Pattern, matches, read};
use std::alloc::Global;

/// `pattern TEXT`: whether other characters may precede and follow it, and the text; or the fault.
pub fn pattern(alloc: Global, row: &Row) -> Answer {
    match read(alloc, row.word(0)?) {
        Ok(pattern) => as_line(alloc, &pattern),
        Err(BadPattern::NoMemory) => Err(CaseFault::NoMemory),
        Err(fault) => display_text(alloc, &fault),
    }
}

fn as_line(alloc: Global, pattern: &Pattern) -> Answer {
    let mut builder = AnswerBuilder::new(alloc);
    builder.add_debug(&pattern.lead);
    builder.add_bytes(b" ");
    builder.add_debug(&pattern.trail);
    builder.add_bytes(b" ");
    builder.add_bytes(pattern.text.as_slice());
    builder.finish()
}

/// `matches PATTERN NAME`: whether the name matches.
pub fn matching(alloc: Global, row: &Row) -> Answer {
    let (text, name) = (row.word(0)?, row.word(1)?);
    match_name(alloc, text, name)
}

fn match_name(alloc: Global, text: &[u8], name: &[u8]) -> Answer {
    match read(alloc, text) {
        Ok(pattern) => debug_text(alloc, &matches(&pattern, name)),
        Err(BadPattern::NoMemory) => Err(CaseFault::NoMemory),
        Err(BadPattern::BadPattern(_)) => Err(CaseFault::Strange),
    }
}
