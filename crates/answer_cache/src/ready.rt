ghost use Rattle.std.specs.Prelude.{◌≡◌, ◌++◌, IfOk, false, true};
ghost use Rattle.http_answer.specs.Replies.{IsAnswerStatus, body_sent, reply};
ghost use Rattle.answer_cache.specs.Ready.{head_lines};

use crate::copies::copy_of_field;
use http_answer::{Answer, make_reply};
use std::alloc::Global;
use std::marker::Model;
use td_base::{Bytes, NoMemory};

/// What stands in a closing reply after its other lines.
const CLOSING_LINES: &[u8] = b"Connection: close\r\n\r\n";

/// An answer in its reply, ready to be sent. The reply is that to a GET after which the connection
/// stays open, and the body stands only there. Contracts see the answer.
#[derive(Drop)]
pub struct ReadyAnswer {
    /// The answer without its body. A body with status 304 stands here: it is not written.
    rest: Answer,
    reply: Bytes,
    /// How many bytes of the reply stand before the body.
    head: usize,
}

impl Model for ReadyAnswer {
    ghost use Rattle.http_answer.specs.declared.answer.Answer.{Answer as TheAnswer};
    ghost use Rattle.answer_cache.specs.Ready.{IsReady, answer_in};

    ghost Value = { TheAnswer };

    ghost view = { λ r. answer_in r.rest r.reply r.head };

    ghost invariant = { λ r. IsReady r.rest r.reply r.head };
}

impl ReadyAnswer {
    /// Writes the head of the reply before the body, in the body's memory if that has room.
    pub fn new(alloc: Global, answer: Answer) -> Result<ReadyAnswer, NoMemory>
        requires { IsAnswerStatus answer.status }
        ensures { IfOk result (λ ready. ready ≡ answer) }
    {
        let front = make_reply(alloc, &answer, true, false)?;
        let head = front.len();
        if answer.status == 304 {
            return Ok(ReadyAnswer {
                rest: answer,
                reply: front,
                head,
            });
        }
        let Answer {
            status,
            kind,
            tag,
            moved,
            body,
        } = answer;
        let rest = Answer {
            status,
            kind,
            tag,
            moved,
            body: Bytes::new(alloc),
        };
        let reply = put_before(body, front.as_slice())?;
        Ok(ReadyAnswer { rest, reply, head })
    }

    /// The head of the reply with its empty line, and the body that is written after it.
    fn split(&self) -> (&[u8], &[u8])
        ensures head { result.0.now ≡ reply self.now true false }
        ensures body { result.1.now ≡ body_sent self.now false }
    {
        self.reply.as_slice().split_at(self.head)
    }

    /// The body, also where it is not written.
    pub fn body(&self) -> &[u8]
        ensures { result.now ≡ self.now.body }
    {
        if self.rest.status == 304 {
            self.rest.body.as_slice()
        } else {
            self.split().1
        }
    }

    /// The reply after which the connection stays open. `head_only` leaves the body out.
    pub fn reply(&self, head_only: bool) -> &[u8]
        ensures { result.now ≡ reply self.now head_only false }
    {
        if head_only {
            self.split().0
        } else {
            self.reply.as_slice()
        }
    }

    /// The body as it is written: empty with 304 and for HEAD.
    fn body_sent(&self, head_only: bool) -> &[u8]
        ensures { result.now ≡ body_sent self.now head_only }
    {
        if head_only { b"" } else { self.split().1 }
    }

    /// The lines of the head, without the empty line.
    fn lines(&self) -> &[u8]
        ensures { result.now ≡ head_lines self.now }
    {
        self.reply.as_slice().split_at(self.head - 2).0
    }

    /// The reply after which the connection closes, in a separate buffer.
    pub fn closing_reply(&self, alloc: Global, head_only: bool) -> Result<Bytes, NoMemory>
        ensures { IfOk result (λ bytes. bytes ≡ reply self.now head_only true) }
    {
        let body = self.body_sent(head_only);
        let room = self
            .head
            .saturating_add(body.len())
            .saturating_add(CLOSING_LINES.len());
        let mut out = Bytes::from(Vec::with_capacity(alloc, room)?);
        out.append(self.lines())?;
        out.append(CLOSING_LINES)?;
        out.append(body)?;
        Ok(out)
    }

    /// A copy of the answer.
    pub fn to_answer(&self, alloc: Global) -> Result<Answer, NoMemory>
        ensures { IfOk result (λ answer. answer ≡ self.now) }
    {
        Ok(Answer {
            status: self.rest.status,
            kind: self.rest.kind,
            tag: copy_of_field(alloc, &self.rest.tag)?,
            moved: self.rest.moved,
            body: Bytes::from_slice(alloc, self.body())?,
        })
    }
}

/// The text and then the bytes, in the memory of the bytes if that has room.
fn put_before(bytes: Bytes, text: &[u8]) -> Result<Bytes, NoMemory>
    ensures { IfOk result (λ all. all ≡ text.now ++ bytes) }
{
    let mut all = bytes.into_vec();
    all.reserve_exact(text.len())?;
    all.extend_from_slice(text)?;
    all.as_mut_slice().rotate_right(text.len());
    Ok(Bytes::from(all))
}
