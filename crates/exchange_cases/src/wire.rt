//! Requests that a mirror writes, and replies that it parses.
use case_lines::{Answer, AnswerBuilder, CaseFault, Row, display_text};
use http_client::{BadReply, Reply};
use std::alloc::Global;
use td_base::{Ask, Bytes};

/// `mirror-request HOST list`, `mirror-request HOST since TOKEN` or `mirror-request HOST get NAME`:
/// the request, appended to the text `before`.
pub fn request(alloc: Global, row: &Row) -> Answer {
    let host = row.word(0)?;
    let ask = ask_of(alloc, row)?;
    request_of(alloc, &ask, host)
}

fn request_of(alloc: Global, ask: &Ask, host: &[u8]) -> Answer {
    let mut out = Bytes::from_slice(alloc, b"before ")?;
    http_client::request(alloc, &mut out, ask, host)?;
    Ok(out.into_vec())
}

fn ask_of(alloc: Global, row: &Row) -> Result<Ask, CaseFault> {
    match row.text(1)? {
        "list" => Ok(Ask::List(None)),
        "since" => Ok(Ask::List(Some(text_of(alloc, row)?))),
        "get" => Ok(Ask::Get(text_of(alloc, row)?)),
        _ => Err(CaseFault::Strange),
    }
}

/// The token or the name of a zone in a row.
fn text_of(alloc: Global, row: &Row) -> Result<Bytes, CaseFault> {
    Ok(Bytes::from_slice(alloc, row.word(2)?)?)
}

/// `mirror-reply TEXT`: the status and the body, or why the text is not a reply.
pub fn reply(alloc: Global, row: &Row) -> Answer {
    match http_client::read(alloc, row.word(0)?) {
        Ok(reply) => as_line(alloc, &reply),
        Err(BadReply::NoMemory) => Err(CaseFault::NoMemory),
        Err(fault) => display_text(alloc, &fault),
    }
}

fn as_line(alloc: Global, reply: &Reply) -> Answer {
    let mut builder = AnswerBuilder::new(alloc);
    builder.add_debug(&reply.status);
    builder.add_bytes(b" ");
    builder.add_bytes(reply.body.as_slice());
    builder.finish()
}
