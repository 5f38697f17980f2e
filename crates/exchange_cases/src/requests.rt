//! Answers to requests over a release.
ghost use Rattle.std.specs.Prelude.{IfOk, IsTrue};
ghost use Rattle.td_base.specs.TargetForm.{has_form};
ghost use Rattle.zone_meaning.specs.ZoneHistories.{HasZoneHistory};

use actions::answer;
use case_lines::{AnswerBuilder, CaseFault, Row};
use catalogue::Catalogue;
use http_request::{Head, Heads, Next};
use release_check::check;
use std::alloc::Global;
use td_base::{Bytes, MemoryStore, NoMemory, Role};
use zone_meaning::Zone;

/// `file PATH BYTES` puts a file into the store.
pub fn file(alloc: Global, store: &mut MemoryStore, row: &Row) -> case_lines::Answer {
    let (path, bytes) = (row.word(0)?, row.word(1)?);
    put(alloc, store, path, bytes)?;
    Ok(Vec::new(alloc))
}

fn put(alloc: Global, store: &mut MemoryStore, path: &[u8], bytes: &[u8]) -> Result<(), NoMemory> {
    let path = Bytes::from_slice(alloc, path)?;
    let bytes = Bytes::from_slice(alloc, bytes)?;
    store.put(path, bytes)
}

/// `request DIR METHOD TARGET FIELDS`: the answer, over the release of that folder, to a request
/// with these fields besides Host.
pub fn request(alloc: Global, store: &mut MemoryStore, row: &Row) -> case_lines::Answer {
    let dir = row.word(0)?;
    let head = head_of(alloc, row)?;
    over_folder(alloc, store, dir, &head)
}

fn over_folder(
    alloc: Global,
    store: &mut MemoryStore,
    dir: &[u8],
    head: &Head,
) -> case_lines::Answer
    requires { IsTrue (has_form head.now.target) }
{
    let catalogue = catalogue_of(alloc, store, dir)?;
    answer_to(alloc, &catalogue, head)
}

/// The catalogue of one release.
fn catalogue_of(
    alloc: Global,
    store: &mut MemoryStore,
    dir: &[u8],
) -> Result<Catalogue<Zone>, CaseFault>
    ensures { IfOk result HasZoneHistory }
{
    match check(alloc, dir, store, None) {
        Ok(release) => Ok(Catalogue::first(alloc, release)?),
        Err(_) => Err(CaseFault::Strange),
    }
}

/// The head of a request.
fn head_of(alloc: Global, row: &Row) -> Result<Head, CaseFault>
    ensures { IfOk result (λ head. IsTrue (has_form head.target)) }
{
    let text = request_text(alloc, row)?;
    head_in(alloc, text.as_slice())
}

fn head_in(alloc: Global, text: &[u8]) -> Result<Head, CaseFault>
    ensures { IfOk result (λ head. IsTrue (has_form head.target)) }
{
    let mut heads = Heads::new(alloc);
    heads.feed(text)?;
    match heads.next(alloc)? {
        Next::Request(head) => Ok(head),
        _ => Err(CaseFault::Strange),
    }
}

fn request_text(alloc: Global, row: &Row) -> case_lines::Answer {
    let (method, target, fields) = (row.word(1)?, row.word(2)?, row.word(3)?);
    let mut text = AnswerBuilder::new(alloc);
    text.add_bytes(method);
    text.add_bytes(b" ");
    text.add_bytes(target);
    text.add_bytes(b" HTTP/1.1\r\nHost: x\r\n");
    text.add_bytes(fields);
    text.add_bytes(b"\r\n");
    text.finish()
}

fn answer_to(alloc: Global, catalogue: &Catalogue<Zone>, head: &Head) -> case_lines::Answer
    requires history { HasZoneHistory catalogue.now }
    requires form { IsTrue (has_form head.now.target) }
{
    let answer = answer(alloc, catalogue, &Role::Primary, head)?;
    as_line(alloc, &answer)
}

/// Status, kind, tag and body. A dash means no tag, and nothing means an empty body.
fn as_line(alloc: Global, answer: &http_answer::Answer) -> case_lines::Answer {
    let mut builder = AnswerBuilder::new(alloc);
    builder.add_debug(&answer.status);
    builder.add_bytes(b" ");
    builder.add_debug(&answer.kind);
    builder.add_bytes(b" ");
    match &answer.tag {
        Some(tag) => builder.add_bytes(tag.as_slice()),
        None => builder.add_bytes(b"-"),
    }
    if !answer.body.as_slice().is_empty() {
        builder.add_bytes(b" ");
        builder.add_bytes(answer.body.as_slice());
    }
    builder.finish()
}
