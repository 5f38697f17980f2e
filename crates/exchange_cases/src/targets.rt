//! What request targets mean.
use case_lines::{Answer, AnswerBuilder, Row};
use std::alloc::Global;
use target::{Asked, Param, read};
use td_base::Bytes;

/// `target TEXT`: the action, the name of a zone, and for each parameter `-`, `*` or `=` and its
/// value.
pub fn target(alloc: Global, row: &Row) -> Answer {
    let text = row.word(0)?;
    asked_by(alloc, text)
}

fn asked_by(alloc: Global, text: &[u8]) -> Answer {
    let asked = read(alloc, text)?;
    as_line(alloc, &asked)
}

fn as_line(alloc: Global, asked: &Asked) -> Answer {
    let mut builder = AnswerBuilder::new(alloc);
    add_action(&mut builder, asked);
    builder.finish()
}

fn add_action(builder: &mut AnswerBuilder, asked: &Asked) {
    match asked {
        Asked::Capabilities => builder.add_bytes(b"capabilities"),
        Asked::LeapSeconds => builder.add_bytes(b"leapseconds"),
        Asked::WellKnown => builder.add_bytes(b"well-known"),
        Asked::Unknown => builder.add_bytes(b"unknown"),
        Asked::List(since) => add_search(builder, b"list", since),
        Asked::Find(pattern) => add_search(builder, b"find", pattern),
        Asked::Get { tzid, start, end } => add_zone(builder, b"get ", tzid, start, end),
        Asked::Expand { tzid, start, end } => add_zone(builder, b"expand ", tzid, start, end),
    }
}

fn add_search(builder: &mut AnswerBuilder, action: &[u8], param: &Param) {
    builder.add_bytes(action);
    add_param(builder, param);
}

fn add_zone(builder: &mut AnswerBuilder, action: &[u8], tzid: &Bytes, start: &Param, end: &Param) {
    builder.add_bytes(action);
    builder.add_bytes(tzid.as_slice());
    add_param(builder, start);
    add_param(builder, end);
}

fn add_param(builder: &mut AnswerBuilder, param: &Param) {
    match param {
        Param::Absent => builder.add_bytes(b" -"),
        Param::Once(text) => add_value(builder, text),
        Param::Repeated => builder.add_bytes(b" *"),
    }
}

fn add_value(builder: &mut AnswerBuilder, value: &Bytes) {
    builder.add_bytes(b" =");
    builder.add_bytes(value.as_slice());
}
