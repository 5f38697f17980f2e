//! A mirror that receives what rows say.
ghost use Rattle.std.specs.Prelude.{IfOk};
ghost use Rattle.sync_core.specs.Mirrors.{ask_of};
ghost use Rattle.sync_core.specs.Steps.{IsAnswerTo};

use case_lines::{Answer, AnswerBuilder, CaseFault, Row};
use json_forms::{BadList, ListDoc, read_list};
use std::alloc::Global;
use sync_core::{Heard, Mirror, Settled};
use td_base::{Ask, Bytes};

/// `begin`: an empty mirror.
pub fn begin(alloc: Global, mirror: &mut Mirror) -> Answer {
    *mirror = Mirror::empty(alloc);
    Ok(Vec::new(alloc))
}

/// `told WHAT`: what the mirror had requested, and whether it is then in sync. WHAT is a list
/// (`{..`), `refused` for a refused token, or a file. It is `lost` when no answer comes, and after
/// `restart` the mirror starts again.
pub fn take_reply(alloc: Global, mirror: &mut Mirror, row: &Row) -> Answer {
    let what = row.word(0)?;
    let mut builder = AnswerBuilder::new(alloc);
    add_ask(alloc, &mut builder, mirror);
    match hear(alloc, mirror, what) {
        Ok(Settled::Holds) => builder.add_bytes(b": holds"),
        Ok(Settled::More) => builder.add_bytes(b": more"),
        Err(fault) => builder.fail(fault),
    }
    builder.finish()
}

/// Appends what a mirror requests.
fn add_ask(alloc: Global, builder: &mut AnswerBuilder, mirror: &Mirror) {
    match mirror.ask(alloc) {
        Ok(Ask::List(None)) => builder.add_bytes(b"list"),
        Ok(Ask::List(Some(token))) => {
            builder.add_bytes(b"list since ");
            builder.add_bytes(token.as_slice());
        }
        Ok(Ask::Get(tzid)) => {
            builder.add_bytes(b"get ");
            builder.add_bytes(tzid.as_slice());
        }
        Err(_) => builder.fail(CaseFault::NoMemory),
    }
}

fn hear(alloc: Global, mirror: &mut Mirror, what: &[u8]) -> Result<Settled, CaseFault> {
    if what == b"lost".as_slice() {
        mirror.lose();
        return Ok(Settled::More);
    }
    if what == b"restart".as_slice() {
        *mirror = Mirror::empty(alloc);
        return Ok(Settled::More);
    }
    take(alloc, mirror, what)
}

/// Lets the mirror apply an answer of the kind that it waits for.
fn take(alloc: Global, mirror: &mut Mirror, text: &[u8]) -> Result<Settled, CaseFault> {
    let heard = reply_in(alloc, mirror, text)?;
    Ok(mirror.take(heard)?)
}

/// A text as the answer that a mirror waits for.
fn reply_in(alloc: Global, mirror: &Mirror, text: &[u8]) -> Result<Heard, CaseFault>
    ensures { IfOk result (λ heard. IsAnswerTo (ask_of mirror.now) heard) }
{
    let asked = mirror.ask(alloc)?;
    answer_to(alloc, &asked, text)
}

fn answer_to(alloc: Global, asked: &Ask, text: &[u8]) -> Result<Heard, CaseFault>
    ensures { IfOk result (λ heard. IsAnswerTo asked.now heard) }
{
    match asked {
        Ask::Get(_) => Ok(Heard::Zone(Bytes::from_slice(alloc, text)?)),
        Ask::List(Some(_)) if text == b"refused".as_slice() => Ok(Heard::BadToken),
        Ask::List(_) => Ok(Heard::List(list_in(alloc, text)?)),
    }
}

/// Parses a text as a list.
fn list_in(alloc: Global, text: &[u8]) -> Result<ListDoc, CaseFault> {
    match read_list(alloc, text) {
        Ok(list) => Ok(list),
        Err(BadList::NoMemory) => Err(CaseFault::NoMemory),
        Err(_) => Err(CaseFault::Strange),
    }
}
