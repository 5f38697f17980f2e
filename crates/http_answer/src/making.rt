ghost use Rattle.std.specs.Prelude.{◌≡◌, IfOk};
ghost use Rattle.http_answer.specs.Replies.{IsAnswerStatus, reply};

use crate::Answer;
use crate::lines::content;
use crate::writing::write;
use std::alloc::Global;
use td_base::{Bytes, NoMemory};

/// The most bytes of a head whose tag has the server's form.
const USUAL_HEAD: usize = 512;

/// The reply in a separate buffer. It is allocated once if the head has at most the usual length.
/// `head_only` and `close` are as in [`write`].
pub fn make_reply(
    alloc: Global,
    answer: &Answer,
    head_only: bool,
    close: bool,
) -> Result<Bytes, NoMemory>
    requires { IsAnswerStatus answer.now.status }
    ensures { IfOk result (λ bytes. bytes ≡ reply answer.now head_only close) }
{
    let room = content(answer, head_only).len().saturating_add(USUAL_HEAD);
    let mut out = Bytes::from(Vec::with_capacity(alloc, room)?);
    write(&mut out, answer, head_only, close)?;
    Ok(out)
}
