//! Header fields of content negotiation: what they choose and contain.
use case_lines::{Answer, Row, debug_text};
use negotiate::{choose, none_match};
use std::alloc::Global;

/// `choose FIELD`, or `choose` without a field: the format.
pub fn choice(alloc: Global, row: &Row) -> Answer {
    let field = row.words().first().map(|word| word.as_slice());
    debug_text(alloc, &choose(field))
}

/// `none-match TAG FIELD`: whether the field contains the tag.
pub fn holding(alloc: Global, row: &Row) -> Answer {
    debug_text(alloc, &none_match(row.word(1)?, row.word(0)?))
}
