ghost use Rattle.std.specs.Prelude.{◌≡◌, ◌++◌, OnOk, OnErr};
ghost use Rattle.http_answer.specs.Parts.{Keeps, parts_text};
ghost use Rattle.http_answer.specs.Replies.{IsAnswerStatus, fields, reply};

use crate::Answer;
use crate::lines::{close_line, content, location_line};
use crate::putting::{put, put_length, put_status, put_tag, put_type};
use td_base::{Bytes, NoMemory};

/// Appends the reply. `head_only` leaves the body out, and `close` adds `Connection: close`. When
/// out of memory, nothing is appended.
pub fn write(out: &mut Bytes, answer: &Answer, head_only: bool, close: bool) -> Result<(), NoMemory>
    requires { IsAnswerStatus answer.now.status }
    ensures ok { OnOk result (out.new ≡ out.old ++ reply answer.now head_only close) }
    ensures err { OnErr result (out.new ≡ out.old) }
{
    let before = out.len();
    match put_reply(out, answer, head_only, close) {
        Ok(()) => Ok(()),
        Err(fault) => {
            out.truncate(before);
            Err(fault)
        }
    }
}

/// Appends the reply, or a prefix of it when out of memory.
#[tactic(auto, using(crate::proofs::Keeping::keeps_both))]
fn put_reply(out: &mut Bytes, answer: &Answer, head_only: bool, close: bool) -> Result<(), NoMemory>
    requires { IsAnswerStatus answer.now.status }
    ensures ok { OnOk result (out.new ≡ out.old ++ reply answer.now head_only close) }
    ensures kept { Keeps out.old out.new }
{
    put_status(out, answer.status)?;
    put_fields(out, answer, close)?;
    put(out, b"\r\n")?;
    put(out, content(answer, head_only))?;
    Ok(())
}

/// Appends the fields that apply.
#[tactic(auto, using(crate::proofs::Keeping::keeps_both))]
fn put_fields(out: &mut Bytes, answer: &Answer, close: bool) -> Result<(), NoMemory>
    ensures ok { OnOk result (out.new ≡ out.old ++ parts_text (fields answer.now close)) }
    ensures kept { Keeps out.old out.new }
{
    put_type(out, answer)?;
    put_tag(out, &answer.tag)?;
    put(out, location_line(answer.moved))?;
    put_length(out, answer)?;
    put(out, close_line(close))?;
    Ok(())
}
