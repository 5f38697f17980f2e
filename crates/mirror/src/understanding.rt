ghost use Rattle.std.specs.Prelude.{◌≡◌, ◌≢◌, IfOk, OnOk};
ghost use Rattle.http_client.specs.declared.reply.BadReply.TheVariants as bad_reply;
ghost use Rattle.json_forms.specs.ListReading.{list_read};
ghost use Rattle.json_forms.specs.ProblemDocument.{problem_in};
ghost use Rattle.mirror.specs.Understanding as means;

use crate::Understood;
use crate::limits::MOST_ANSWER;
use http_client::{BadReply, Reply, read};
use json_forms::{BadList, Problem, read_list, read_problem};
use std::alloc::Global;
use sync_core::Heard;
use td_base::{Ask, Bytes, NoMemory};

/// The meaning of the bytes of an answer to a request.
pub fn understand(alloc: Global, ask: &Ask, answer: &[u8]) -> Result<Understood, NoMemory>
    ensures { IfOk result (means.Means ask.now answer.now) }
{
    if answer.len() >= MOST_ANSWER {
        return Ok(Understood::Unreadable(MOST_ANSWER));
    }
    match read(alloc, answer) {
        Ok(reply) => hear_reply(alloc, ask, reply),
        Err(fault) => unreadable(fault),
    }
}

/// The meaning of bytes that are not a reply.
fn unreadable(fault: BadReply) -> Result<Understood, NoMemory>
    ensures heard { IfOk result (λ u. u ≡ means.fault_heard fault) }
    ensures memory { OnOk result (fault ≢ bad_reply.NoMemory) }
{
    match fault {
        BadReply::BadReply(place) => Ok(Understood::Unreadable(place)),
        BadReply::NoMemory => Err(NoMemory),
    }
}

#[tactic(auto, unfolding(crate::specs::Understanding::reply_heard))]
fn hear_reply(alloc: Global, ask: &Ask, reply: Reply) -> Result<Understood, NoMemory>
    ensures { IfOk result (λ u. u ≡ means.reply_heard ask.now reply) }
{
    if reply.status == 200 {
        return hear_body(alloc, ask, reply.body);
    }
    if refuses_token(alloc, ask, &reply)? {
        return Ok(Understood::Hears(Heard::BadToken));
    }
    Ok(Understood::Refuses(reply.status))
}

fn hear_body(alloc: Global, ask: &Ask, body: Bytes) -> Result<Understood, NoMemory>
    ensures { IfOk result (λ u. u ≡ means.body_heard ask.now body) }
{
    match ask {
        Ask::List(_) => hear_list(alloc, body.as_slice()),
        Ask::Get(_) => Ok(Understood::Hears(Heard::Zone(body))),
    }
}

fn hear_list(alloc: Global, body: &[u8]) -> Result<Understood, NoMemory>
    ensures { IfOk result (λ u. u ≡ means.list_heard (list_read body.now)) }
{
    match read_list(alloc, body) {
        Ok(list) => Ok(Understood::Hears(Heard::List(list))),
        Err(BadList::BadList(place)) => Ok(Understood::Unreadable(place)),
        Err(BadList::NoMemory) => Err(NoMemory),
    }
}

/// Whether the reply refuses the token of the request (RFC 7808, section 5.2).
fn refuses_token(alloc: Global, ask: &Ask, reply: &Reply) -> Result<bool, NoMemory>
    ensures { IfOk result (λ refuses. refuses ≡ means.refuses_token ask.now reply.now) }
{
    match ask {
        Ask::List(Some(_)) if reply.status == 400 => is_token_problem(alloc, reply.body.as_slice()),
        _ => Ok(false),
    }
}

/// Whether a body reports that a token is refused.
fn is_token_problem(alloc: Global, body: &[u8]) -> Result<bool, NoMemory>
    ensures { IfOk result (λ is. is ≡ means.names_changedsince (problem_in body.now)) }
{
    match read_problem(alloc, body)? {
        Some(Problem::InvalidChangedsince) => Ok(true),
        _ => Ok(false),
    }
}
