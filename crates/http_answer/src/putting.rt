ghost use Rattle.std.specs.Prelude.{◌≡◌, ◌++◌, OnOk};
ghost use Rattle.http_answer.specs.Parts.{Keeps, field_line, parts_text};
ghost use Rattle.http_answer.specs.Replies.{IsAnswerStatus, ended, length_lines, status_line};
ghost use Rattle.http_answer.specs.Replies.{tag_lines, type_lines, unless_unchanged};

use crate::Answer;
use crate::lines::type_line;
use crate::status::{phrase_of, status_of};
use itoa::Buffer;
use td_base::{Bytes, NoMemory};

/// Appends the text.
pub fn put(out: &mut Bytes, text: &[u8]) -> Result<(), NoMemory>
    ensures ok { OnOk result (out.new ≡ out.old ++ text.now) }
    ensures kept { Keeps out.old out.new }
{
    out.append(text)
}

/// Appends a field line.
#[tactic(auto, using(crate::proofs::Keeping::keeps_both))]
fn put_line(out: &mut Bytes, name: &[u8], value: &[u8]) -> Result<(), NoMemory>
    ensures ok { OnOk result (out.new ≡ out.old ++ field_line name.now value.now) }
    ensures kept { Keeps out.old out.new }
{
    put(out, name)?;
    put(out, value)?;
    put(out, b"\r\n")?;
    Ok(())
}

/// Appends the status line.
#[tactic(auto, using(crate::proofs::Keeping::keeps_both))]
pub fn put_status(out: &mut Bytes, status: u16) -> Result<(), NoMemory>
    requires { IsAnswerStatus status }
    ensures ok { OnOk result (out.new ≡ out.old ++ ended (status_line status)) }
    ensures kept { Keeps out.old out.new }
{
    let status = status_of(status);
    put(out, b"HTTP/1.1 ")?;
    put(out, status.as_str().as_bytes())?;
    put_line(out, b" ", phrase_of(status))?;
    Ok(())
}

/// Appends the Content-Type line.
#[tactic(auto, using(crate::proofs::Keeping::keeps_both, crate::proofs::Keeping::keeps_itself))]
pub fn put_type(out: &mut Bytes, answer: &Answer) -> Result<(), NoMemory>
    ensures ok { OnOk result (out.new ≡ out.old
        ++ parts_text (unless_unchanged answer.now.status (type_lines answer.now.kind))) }
    ensures kept { Keeps out.old out.new }
{
    if answer.status == 304 {
        return Ok(());
    }
    put(out, type_line(answer.kind))
}

/// Appends the lines of the tag.
#[tactic(auto, using(crate::proofs::Keeping::keeps_both, crate::proofs::Keeping::keeps_itself))]
pub fn put_tag(out: &mut Bytes, tag: &Option<Bytes>) -> Result<(), NoMemory>
    ensures ok { OnOk result (out.new ≡ out.old ++ parts_text (tag_lines tag.now)) }
    ensures kept { Keeps out.old out.new }
{
    match tag {
        Some(tag) => {
            put_line(out, b"ETag: ", tag.as_slice())?;
            put(out, b"Vary: Accept\r\n")?;
            Ok(())
        }
        None => Ok(()),
    }
}

/// Appends the Content-Length line.
#[tactic(auto, using(crate::proofs::Keeping::keeps_both, crate::proofs::Keeping::keeps_itself))]
pub fn put_length(out: &mut Bytes, answer: &Answer) -> Result<(), NoMemory>
    ensures ok { OnOk result (out.new ≡ out.old
        ++ parts_text (unless_unchanged answer.now.status (length_lines answer.now.body))) }
    ensures kept { Keeps out.old out.new }
{
    if answer.status == 304 {
        return Ok(());
    }
    let mut digits = Buffer::new();
    put_line(
        out,
        b"Content-Length: ",
        digits.format(answer.body.len()).as_bytes(),
    )?;
    Ok(())
}
