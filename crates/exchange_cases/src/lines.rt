//! Lines of a console.
use crate::pieces::{Same, join_words};
use case_lines::{Answer, AnswerBuilder, CaseFault, Row};
use console::{Line, Lines};
use std::alloc::Global;
use std::fmt::Debug;
use subscribers::{Wish, WishKind};
use td_base::Bytes;

/// `lines TEXT`: the lines of the text, each with a line feed, and how many bytes are held in the
/// end. The text comes in pieces of each size from 1 to 59, and cut once at each place up to the
/// 59th.
pub fn lines(alloc: Global, row: &Row) -> Answer {
    let text = join_words(alloc, row.words())?;
    in_all_pieces(alloc, text.as_slice())
}

fn in_all_pieces(alloc: Global, text: &[u8]) -> Answer {
    let mut same = Same::new(in_pieces(alloc, text, 1));
    for at in 1..60 {
        same.compare(at, in_pieces(alloc, text, at));
        same.compare(at, cut_once(alloc, text, at));
    }
    same.answer(alloc)
}

/// `long-line FIRST TIMES END`: feeds FIRST, then `x` TIMES times in pieces of 4,096 bytes, then
/// END. Lines are requested after each piece. The answer has the lines before END (there should be
/// none), the length of the first line's folder, and the lines after it. It ends with the most
/// bytes held before END, and how many are held after it.
pub fn long_line(alloc: Global, row: &Row) -> Answer {
    let (first, times, end) = (row.word(0)?, row.number(1)?, row.word(2)?);
    fed_long(alloc, first, times, end)
}

fn fed_long(alloc: Global, first: &[u8], times: u64, end: &[u8]) -> Answer {
    let mut lines = Lines::new(alloc);
    let mut builder = AnswerBuilder::new(alloc);
    builder.add_outcome(lines.feed(first));
    let most = feed_long(&mut lines, times, &mut builder);
    builder.add_outcome(lines.feed(end));
    add_end(&mut lines, &mut builder, most);
    builder.finish()
}

/// Feeds `x` so many times, and returns the most bytes that were held after a piece.
fn feed_long(lines: &mut Lines, times: u64, builder: &mut AnswerBuilder) -> usize {
    let piece = [b'x'; 4_096];
    let mut most = 0;
    for _ in 0..times / 4_096 {
        most = feed_piece(lines, &piece, builder).max(most);
    }
    feed_piece(lines, &piece[..(times % 4_096) as usize], builder).max(most)
}

/// Feeds a piece, appends the whole lines, and returns how many bytes are held.
fn feed_piece(lines: &mut Lines, piece: &[u8], builder: &mut AnswerBuilder) -> usize {
    builder.add_outcome(lines.feed(piece));
    add_all(lines, builder);
    lines.held()
}

/// Appends the length of the first line's folder, and the lines after it.
fn add_end(lines: &mut Lines, builder: &mut AnswerBuilder, most: usize) {
    add_folder(lines, builder);
    builder.add_bytes(b" ");
    add_all(lines, builder);
    builder.add_debug(&most);
    builder.add_bytes(b" ");
    builder.add_debug(&lines.held());
}

/// Appends the length of the folder in the next line, which is an `install`.
fn add_folder(lines: &mut Lines, builder: &mut AnswerBuilder) {
    match lines.next() {
        Ok(Some(line)) => builder.add_debug(&folder_length(&line)),
        Ok(None) => builder.add_bytes(b"0"),
        Err(_) => builder.fail(CaseFault::NoMemory),
    }
}

/// The length of the folder in an `install`, and 0 for another line.
fn folder_length(line: &Line) -> usize {
    match line {
        Line::Install(folder) => folder.len(),
        _ => 0,
    }
}

/// The text in pieces of this size, with the lines of each piece read before the next is fed.
fn in_pieces(alloc: Global, text: &[u8], size: usize) -> Answer {
    let mut lines = Lines::new(alloc);
    let mut builder = AnswerBuilder::new(alloc);
    feed_pieces(&mut lines, text, size, &mut builder);
    builder.add_debug(&lines.held());
    builder.finish()
}

fn feed_pieces(lines: &mut Lines, text: &[u8], size: usize, builder: &mut AnswerBuilder) {
    for piece in text.chunks(size.max(1)) {
        let _ = feed_piece(lines, piece, builder);
    }
}

/// The text in two pieces, cut here, with no line read between them.
fn cut_once(alloc: Global, text: &[u8], at: usize) -> Answer {
    let (first, rest) = text.split_at(at.min(text.len()));
    let mut lines = Lines::new(alloc);
    let mut builder = AnswerBuilder::new(alloc);
    builder.add_outcome(lines.feed(first));
    let held = feed_piece(&mut lines, rest, &mut builder);
    builder.add_debug(&held);
    builder.finish()
}

/// Appends the texts of all lines that are held.
fn add_all(lines: &mut Lines, builder: &mut AnswerBuilder) {
    for _ in 0..20 {
        match lines.next() {
            Ok(Some(line)) => add_line(builder, &line),
            Ok(None) => return,
            Err(_) => builder.fail(CaseFault::NoMemory),
        }
    }
}

/// Appends the text of a line.
fn add_line(builder: &mut AnswerBuilder, line: &Line) {
    match line {
        Line::Install(folder) => add_named(builder, b"install ", folder),
        Line::Watch(wish) => add_wish(builder, wish),
        Line::News(number) => add_number(builder, b"news ", number),
        Line::Sync => builder.add_bytes(b"sync"),
        Line::Status => builder.add_bytes(b"status"),
        Line::Quit => builder.add_bytes(b"quit"),
        Line::Strange => builder.add_bytes(b"strange"),
    }
    builder.add_bytes(b"\n");
}

fn add_named(builder: &mut AnswerBuilder, kind: &[u8], name: &Bytes) {
    builder.add_bytes(kind);
    builder.add_bytes(name.as_slice());
}

fn add_number<T: Debug>(builder: &mut AnswerBuilder, kind: &[u8], number: &T) {
    builder.add_bytes(kind);
    builder.add_debug(number);
}

/// Appends the text of a wish, with the seconds of its moment.
fn add_wish(builder: &mut AnswerBuilder, wish: &Wish) {
    match wish.kind {
        WishKind::Any => builder.add_bytes(b"watch any"),
        WishKind::Under => add_named(builder, b"watch under ", &wish.under),
        WishKind::Past => add_number(builder, b"watch past ", &wish.before.seconds),
    }
}
