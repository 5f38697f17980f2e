//! Parsing lists and problem documents.
use case_lines::{Answer, AnswerBuilder, CaseFault, Row, debug_text, display_text};
use json_forms::{BadList, ListDoc, ListZone, read_list, read_problem};
use std::alloc::Global;
use td_base::Bytes;

/// `list-fault TEXT`: why the text is not a list, and `none` if it is one.
pub fn list_fault(alloc: Global, row: &Row) -> Answer {
    match read_list(alloc, row.word(0)?) {
        Ok(_) => case_lines::bytes(alloc, b"none"),
        Err(BadList::NoMemory) => Err(CaseFault::NoMemory),
        Err(fault) => display_text(alloc, &fault),
    }
}

/// `read-list TEXT`: the token of the list, and its zones, each after a bar.
pub fn list(alloc: Global, row: &Row) -> Answer {
    match read_list(alloc, row.word(0)?) {
        Ok(list) => as_line(alloc, &list),
        Err(BadList::NoMemory) => Err(CaseFault::NoMemory),
        Err(_) => Err(CaseFault::Strange),
    }
}

fn as_line(alloc: Global, list: &ListDoc) -> Answer {
    let mut builder = AnswerBuilder::new(alloc);
    builder.add_bytes(list.token.as_slice());
    for zone in list.zones.as_slice() {
        add_zone(&mut builder, zone);
    }
    builder.finish()
}

/// Appends identifier, tag, stamp in seconds, publisher, version and aliases of a zone.
fn add_zone(builder: &mut AnswerBuilder, zone: &ListZone) {
    builder.add_bytes(b" |");
    add_word(builder, &zone.tzid);
    add_word(builder, &zone.etag);
    builder.add_bytes(b" ");
    builder.add_debug(&zone.stamp.seconds);
    add_word(builder, &zone.publisher);
    add_word(builder, &zone.version);
    for alias in zone.aliases.as_slice() {
        add_word(builder, alias);
    }
}

fn add_word(builder: &mut AnswerBuilder, word: &Bytes) {
    builder.add_bytes(b" ");
    builder.add_bytes(word.as_slice());
}

/// `read-problem TEXT`: the problem in the text, if it has one.
pub fn problem(alloc: Global, row: &Row) -> Answer {
    let found = read_problem(alloc, row.word(0)?)?;
    debug_text(alloc, &found)
}
