//! Replies of HTTP/1.1.
ghost use Rattle.std.specs.Prelude.{IfOk};
ghost use Rattle.http_answer.specs.Replies.{IsAnswerStatus};

use crate::pieces::join_words;
use case_lines::{Answer, CaseFault, Row};
use http_answer::{Answer as Reply, Kind, make_reply, write};
use std::alloc::Global;
use td_base::Bytes;

/// `reply STATUS KIND TAG MOVED WHAT AFTER BODY`: the reply to such an answer, both appended and in
/// a new buffer. TAG is `-` for none, MOVED `moved` or `here`, WHAT `head` or `body`, and AFTER
/// `close` or `open`.
pub fn reply(alloc: Global, row: &Row) -> Answer {
    let form = form_of(row)?;
    let answer = answer_of(alloc, row)?;
    both(alloc, &answer, form)
}

/// How a reply is sent.
#[derive(Clone, Copy)]
struct Form {
    head_only: bool,
    close: bool,
}

fn form_of(row: &Row) -> Result<Form, CaseFault> {
    Ok(Form {
        head_only: says(row, 4, "head")?,
        close: says(row, 5, "close")?,
    })
}

/// Whether the word at this index is this one.
fn says(row: &Row, at: usize, word: &str) -> Result<bool, CaseFault> {
    match row.text(at) {
        Ok(given) => Ok(given == word),
        Err(fault) => Err(fault),
    }
}

/// The reply in a new buffer, if the appended one is the same.
fn both(alloc: Global, answer: &Reply, form: Form) -> Answer
    requires { IsAnswerStatus answer.now.status }
{
    let appended = append(alloc, answer, form)?;
    let made = make_reply(alloc, answer, form.head_only, form.close)?;
    same(alloc, made, &appended)
}

/// The reply, appended to the text `before`.
fn append(alloc: Global, answer: &Reply, form: Form) -> Result<Bytes, CaseFault>
    requires { IsAnswerStatus answer.now.status }
{
    let mut out = Bytes::from_slice(alloc, b"before")?;
    write(&mut out, answer, form.head_only, form.close)?;
    Ok(out)
}

/// The reply, if the appended one is the same.
fn same(alloc: Global, made: Bytes, appended: &Bytes) -> Answer {
    if appended.as_slice().strip_prefix(b"before") == Some(made.as_slice()) {
        Ok(made.into_vec())
    } else {
        case_lines::bytes(alloc, b"two replies")
    }
}

/// The answer that the first words of a row and those from the seventh on describe.
fn answer_of(alloc: Global, row: &Row) -> Result<Reply, CaseFault>
    ensures { IfOk result (λ answer. IsAnswerStatus answer.status) }
{
    let shape = shape_of(row)?;
    let tag = tag_of(alloc, row)?;
    let body = join_words(alloc, row.words().get(6..).unwrap_or(&[]))?;
    Ok(Reply {
        status: shape.status,
        kind: shape.kind,
        tag,
        moved: shape.moved,
        body: Bytes::from(body),
    })
}

/// What an answer is besides its texts.
#[derive(Clone, Copy)]
struct Shape {
    status: u16,
    kind: Option<Kind>,
    moved: bool,
}

fn shape_of(row: &Row) -> Result<Shape, CaseFault>
    ensures { IfOk result (λ shape. IsAnswerStatus shape.status) }
{
    let status = status_of(row.number(0)?)?;
    let kind = kind_of(row.text(1)?);
    let moved = says(row, 3, "moved")?;
    Ok(Shape {
        status,
        kind,
        moved,
    })
}

fn status_of(number: u64) -> Result<u16, CaseFault>
    ensures { IfOk result IsAnswerStatus }
{
    match number {
        200 => Ok(200),
        301 => Ok(301),
        304 => Ok(304),
        400 => Ok(400),
        404 => Ok(404),
        406 => Ok(406),
        _ => Err(CaseFault::Strange),
    }
}

fn kind_of(word: &str) -> Option<Kind> {
    match word {
        "json" => Some(Kind::Json),
        "problem" => Some(Kind::Problem),
        "calendar" => Some(Kind::Calendar),
        "tzif" => Some(Kind::Tzif),
        "json-calendar" => Some(Kind::CalendarJson),
        _ => None,
    }
}

fn tag_of(alloc: Global, row: &Row) -> Result<Option<Bytes>, CaseFault> {
    let word = row.word(2)?;
    tag_in(alloc, word)
}

fn tag_in(alloc: Global, word: &[u8]) -> Result<Option<Bytes>, CaseFault> {
    if word == b"-".as_slice() {
        return Ok(None);
    }
    Ok(Some(Bytes::from_slice(alloc, word)?))
}

/// `fixed STATUS`: the closing reply.
pub fn closing_reply(alloc: Global, row: &Row) -> Answer {
    match row.number(0)? {
        400 => case_lines::bytes(alloc, http_answer::fixed(400)),
        405 => case_lines::bytes(alloc, http_answer::fixed(405)),
        431 => case_lines::bytes(alloc, http_answer::fixed(431)),
        503 => case_lines::bytes(alloc, http_answer::fixed(503)),
        _ => Err(CaseFault::Strange),
    }
}
