ghost use Rattle.std.specs.Prelude.{◌≡◌, IfOk, IsTrue, OnErr, length};
ghost use Rattle.answer_cache.specs.Computing.{RoseByOne};
ghost use Rattle.connection.specs.Keeping.{ComputesOnce, ComputesUnlessKept, IsAnswerToKey};
ghost use Rattle.connection.specs.Keeping.{IsKeyNow, IsReplyNow, KeepsAnswers, RepliesTo};
ghost use Rattle.connection.specs.Keeping.{key_of};
ghost use Rattle.connection.specs.Sending.{SendsReply};
ghost use Rattle.http_answer.specs.Replies.{reply};
ghost use Rattle.json_forms.specs.PlainTexts.{IsPlainRole};
ghost use Rattle.td_base.specs.TargetForm.{has_form};
ghost use Rattle.td_base.specs.Transfer.{Sends};

use crate::computing::compute_answer;
use crate::kept_answers::KeptAnswers;
use crate::places::place_of;
use answer_cache::{Key, ReadyAnswer};
use catalogue::Catalogue;
use http_request::Head;
use publication::Desk;
use std::alloc::Global;
use td_base::{Conn, NoMemory, Role, Written, send_whole};
use zone_meaning::Zone;

/// Sends the reply to a request, at the place of the catalogue that the desk holds. When there is
/// no memory for the reply, nothing is sent.
pub fn reply_to<C: Conn>(
    alloc: Global,
    role: &Role,
    desk: &Desk<Catalogue<Zone>>,
    kept: &mut KeptAnswers,
    conn: &mut C,
    head: Head,
    close: bool,
) -> Result<Written, NoMemory>
    requires role { IsPlainRole role.now }
    requires form { IsTrue (has_form head.target) }
    requires kept { KeepsAnswers desk.now role.now kept.old }
    ensures sends { IfOk result (SendsReply (IsReplyNow desk.now role.now head close)
        (C.seen conn.old) (C.seen conn.new)) }
    ensures none { OnErr result (C.seen conn.new ≡ C.seen conn.old) }
    ensures kept { KeepsAnswers desk.now role.now kept.new }
    ensures computed { ComputesOnce kept.old.computed kept.new.computed }
    ensures unless_kept { ComputesUnlessKept kept.old kept.new
        (key_of (length desk.now.seen) head) }
{
    let head_only = head.head_only;
    let key = key_of(place_of(desk), head);
    reply_by_key(alloc, role, desk, kept, conn, key, head_only, close)
}

/// Sends the reply with the cached answer to a key, or else with one that is computed now.
fn reply_by_key<C: Conn>(
    alloc: Global,
    role: &Role,
    desk: &Desk<Catalogue<Zone>>,
    kept: &mut KeptAnswers,
    conn: &mut C,
    key: Key,
    head_only: bool,
    close: bool,
) -> Result<Written, NoMemory>
    requires now { IsKeyNow desk.now role.now key }
    requires kept { KeepsAnswers desk.now role.now kept.old }
    ensures sends { IfOk result (SendsReply (RepliesTo desk.now role.now key head_only close)
        (C.seen conn.old) (C.seen conn.new)) }
    ensures none { OnErr result (C.seen conn.new ≡ C.seen conn.old) }
    ensures kept { KeepsAnswers desk.now role.now kept.new }
    ensures computed { ComputesOnce kept.old.computed kept.new.computed }
    ensures unless_kept { ComputesUnlessKept kept.old kept.new key }
{
    if kept.many.promote(&key) {
        return send_ready(alloc, conn, kept.many.newest(), head_only, close);
    }
    if kept.large.promote(&key) {
        return send_ready(alloc, conn, kept.large.newest(), head_only, close);
    }
    send_new(alloc, role, desk, kept, conn, key, head_only, close)
}

/// Sends the reply with a newly computed answer. Once that is sent the answer is cached, without a
/// copy.
fn send_new<C: Conn>(
    alloc: Global,
    role: &Role,
    desk: &Desk<Catalogue<Zone>>,
    kept: &mut KeptAnswers,
    conn: &mut C,
    key: Key,
    head_only: bool,
    close: bool,
) -> Result<Written, NoMemory>
    requires now { IsKeyNow desk.now role.now key }
    requires kept { KeepsAnswers desk.now role.now kept.old }
    ensures sends { IfOk result (SendsReply (RepliesTo desk.now role.now key head_only close)
        (C.seen conn.old) (C.seen conn.new)) }
    ensures none { OnErr result (C.seen conn.new ≡ C.seen conn.old) }
    ensures kept { KeepsAnswers desk.now role.now kept.new }
    ensures counted { RoseByOne kept.old.computed kept.new.computed }
{
    let ready = new_answer(alloc, role, desk, &mut kept.computed, &key)?;
    let written = send_ready(alloc, conn, &ready, head_only, close)?;
    kept.keep(key, ready);
    Ok(written)
}

/// The answer to a key, computed and in its reply.
fn new_answer(
    alloc: Global,
    role: &Role,
    desk: &Desk<Catalogue<Zone>>,
    computed: &mut u64,
    key: &Key,
) -> Result<ReadyAnswer, NoMemory>
    requires { IsKeyNow desk.now role.now key.now }
    ensures is { IfOk result (IsAnswerToKey desk.now role.now key.now) }
    ensures counted { RoseByOne computed.old computed.new }
{
    let answer = compute_answer(alloc, role, desk, computed, key)?;
    ReadyAnswer::new(alloc, answer)
}

/// Sends the reply of an answer. Where the connection stays open, it is sent from where it stands.
fn send_ready<C: Conn>(
    alloc: Global,
    conn: &mut C,
    ready: &ReadyAnswer,
    head_only: bool,
    close: bool,
) -> Result<Written, NoMemory>
    ensures sends { IfOk result (Sends (C.seen conn.old) (C.seen conn.new)
        (reply ready.now head_only close)) }
    ensures none { OnErr result (C.seen conn.new ≡ C.seen conn.old) }
{
    if close {
        let reply = ready.closing_reply(alloc, head_only)?;
        return Ok(send_whole(conn, reply.as_slice()));
    }
    Ok(send_whole(conn, ready.reply(head_only)))
}

/// The cache key of a request at a place. It takes over the texts of the head.
fn key_of(place: u32, head: Head) -> Key
    ensures { result ≡ key_of place head }
{
    Key {
        place,
        target: head.target,
        accept: head.accept,
        none_match: head.none_match,
    }
}
