//! Parsing request heads from the bytes of a connection.
use crate::pieces::{Same, join_words};
use case_lines::{Answer, AnswerBuilder, CaseFault, Row, numbers};
use http_request::{Head, Heads, Next};
use std::alloc::Global;
use td_base::Bytes;

/// `heads STREAM`: the heads of the stream, in pieces of each size from 1 to 99.
pub fn heads(alloc: Global, row: &Row) -> Answer {
    let stream = join_words(alloc, row.words())?;
    let mut same = Same::new(result_of(alloc, stream.as_slice(), 1));
    for size in 2..100 {
        same.compare(size, result_of(alloc, stream.as_slice(), size));
    }
    same.answer(alloc)
}

/// `long STREAM`: the heads of the stream, in single bytes and in pieces of 4,096 and 20,000 bytes.
pub fn long(alloc: Global, row: &Row) -> Answer {
    let stream = join_words(alloc, row.words())?;
    let mut same = Same::new(result_of(alloc, stream.as_slice(), 1));
    for size in [4_096, 20_000] {
        same.compare(size, result_of(alloc, stream.as_slice(), size));
    }
    same.answer(alloc)
}

/// `held SIZES STREAM`: how many bytes are held after each piece. The pieces have these sizes.
pub fn sizes_after(alloc: Global, row: &Row) -> Answer {
    let stream = join_words(alloc, row.words().get(1..).unwrap_or(&[]))?;
    let sizes = numbers(alloc, row.word(0)?)?;
    held_of(alloc, stream.as_slice(), sizes.as_slice())
}

fn held_of(alloc: Global, stream: &[u8], sizes: &[u64]) -> Answer {
    let mut heads = Heads::new(alloc);
    let mut builder = AnswerBuilder::new(alloc);
    let mut left = stream;
    for size in sizes {
        let (piece, rest) = left.split_at((*size as usize).min(left.len()));
        left = rest;
        add_held(alloc, &mut heads, piece, &mut builder);
    }
    builder.finish()
}

/// Appends how many bytes are held after this piece, and removes the whole heads from them.
fn add_held(alloc: Global, heads: &mut Heads, piece: &[u8], builder: &mut AnswerBuilder) {
    builder.add_outcome(heads.feed(piece));
    builder.add_debug(&heads.held());
    builder.add_bytes(b",");
    let mut unread = AnswerBuilder::new(alloc);
    let _ = add_heads(alloc, heads, &mut unread);
    if let Err(fault) = unread.finish() {
        builder.fail(fault);
    }
}

/// The result of the stream in pieces of this size: a line for each head, then the refusal or
/// `more`.
fn result_of(alloc: Global, stream: &[u8], size: usize) -> Answer {
    let mut builder = AnswerBuilder::new(alloc);
    add_stream(alloc, stream, size, &mut builder);
    builder.finish()
}

fn add_stream(alloc: Global, stream: &[u8], size: usize, builder: &mut AnswerBuilder) {
    let mut heads = Heads::new(alloc);
    if !add_pieces(alloc, &mut heads, stream, size, builder) {
        builder.add_bytes(b"more");
    }
}

/// Appends the heads of the stream. Returns whether a refusal came, or memory ran out.
fn add_pieces(
    alloc: Global,
    heads: &mut Heads,
    stream: &[u8],
    size: usize,
    builder: &mut AnswerBuilder,
) -> bool {
    for piece in stream.chunks(size.max(1)) {
        builder.add_outcome(heads.feed(piece));
        if add_heads(alloc, heads, builder) {
            return true;
        }
    }
    false
}

/// Appends the whole heads in the held bytes, at most four. Returns whether a refusal came, or
/// memory ran out.
fn add_heads(alloc: Global, heads: &mut Heads, builder: &mut AnswerBuilder) -> bool {
    for _ in 0..4 {
        match heads.next(alloc) {
            Ok(Next::Request(head)) => add_head(builder, &head),
            Ok(Next::More) => return false,
            Ok(Next::Bad(status)) => {
                builder.add_debug(&status);
                return true;
            }
            Err(_) => {
                builder.fail(CaseFault::NoMemory);
                return true;
            }
        }
    }
    false
}

/// The target, ` head` for HEAD, ` close` if the connection is to be closed, and the two joined
/// fields.
fn add_head(builder: &mut AnswerBuilder, head: &Head) {
    builder.add_bytes(head.target.as_slice());
    if head.head_only {
        builder.add_bytes(b" head");
    }
    if head.close {
        builder.add_bytes(b" close");
    }
    add_field(builder, b" accept=", &head.accept);
    add_field(builder, b" none_match=", &head.none_match);
    builder.add_bytes(b"\n");
}

fn add_field(builder: &mut AnswerBuilder, name: &[u8], field: &Option<Bytes>) {
    if let Some(value) = field {
        builder.add_bytes(name);
        builder.add_bytes(value.as_slice());
    }
}
