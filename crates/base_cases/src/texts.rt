//! Texts of header fields.
use case_lines::{Answer, AnswerBuilder, CaseFault, Row, debug_text};
use std::alloc::Global;
use td_base::texts;

/// `cut TEXT SEPARATOR`: the bytes before the first separator, and those after it.
pub fn cut(alloc: Global, row: &Row) -> Answer {
    let [separator] = row.word(1)? else {
        return Err(CaseFault::Strange);
    };
    let (front, rest) = texts::cut(row.word(0)?, *separator);
    let mut builder = AnswerBuilder::new(alloc);
    builder.add_bytes(front);
    add_rest(&mut builder, rest);
    builder.finish()
}

fn add_rest(builder: &mut AnswerBuilder, rest: Option<&[u8]>) {
    match rest {
        Some(rest) => {
            builder.add_bytes(b" and ");
            builder.add_bytes(rest);
        }
        None => builder.add_bytes(b" alone"),
    }
}

/// `trim TEXT`: the text without blanks at its ends, in brackets.
pub fn trim(alloc: Global, row: &Row) -> Answer {
    let text = texts::trim(row.word(0)?);
    let mut builder = AnswerBuilder::new(alloc);
    builder.add_bytes(b"[");
    builder.add_bytes(text);
    builder.add_bytes(b"]");
    builder.finish()
}

/// `part TEXT COUNT`: its first COUNT bytes, and those after them.
pub fn part(alloc: Global, row: &Row) -> Answer {
    let (text, count) = (row.word(0)?, row.number(1)? as usize);
    let mut builder = AnswerBuilder::new(alloc);
    builder.add_bytes(texts::start(text, count));
    builder.add_bytes(b"|");
    builder.add_bytes(texts::skip(text, count));
    builder.finish()
}

/// `any-case TEXT TEXT`: whether the two are equal without case, and whether the first begins with
/// the second.
pub fn any_case(alloc: Global, row: &Row) -> Answer {
    let (text, other) = (row.word(0)?, row.word(1)?);
    debug_text(
        alloc,
        &(texts::is_same(text, other), texts::begins(text, other)),
    )
}
