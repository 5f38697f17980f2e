//! The texts of the replies.
ghost use Rattle.std.specs.Prelude.{◌≡◌, ◌+◌, ◌≤◌, ◌++◌, length, take, codes, decimal, OnOk, OnErr};
ghost use Rattle.console.specs.Replies.{IsBoundedReply, reply_text};

use crate::{Said, ShortLine};
use itoa::Buffer;
use td_base::{Bytes, NoMemory, Token};

/// Appends the reply. When memory runs out nothing is appended.
pub fn reply(out: &mut Bytes, said: &Said) -> Result<(), NoMemory>
    ensures ok { OnOk result (out.new ≡ out.old ++ reply_text said.now) }
    ensures err { OnErr result (out.new ≡ out.old) }
{
    match said {
        Said::Refused(fault) => put_refusal(out, fault.as_slice()),
        _ => out.append(short(said).as_slice()),
    }
}

/// Appends a refusal. When memory runs out nothing is appended.
fn put_refusal(out: &mut Bytes, fault: &[u8]) -> Result<(), NoMemory>
    ensures ok { OnOk result
        (out.new ≡ out.old ++ (codes "refused " ++ (fault.now ++ codes "\n"))) }
    ensures err { OnErr result (out.new ≡ out.old) }
{
    let start = out.len();
    if let Err(error) = append_line(out, b"refused ", fault, b"\n") {
        out.truncate(start);
        return Err(error);
    }
    Ok(())
}

/// Appends three texts. When memory runs out, the part already appended stays.
fn append_line(out: &mut Bytes, word: &[u8], text: &[u8], end: &[u8]) -> Result<(), NoMemory>
    ensures ok { OnOk result (out.new ≡ out.old ++ (word.now ++ (text.now ++ end.now))) }
    ensures kept { take (length out.old) out.new ≡ out.old }
{
    out.append(word)?;
    out.append(text)?;
    out.append(end)?;
    Ok(())
}

/// The reply to anything but a refusal, whose text may be too long. It allocates no memory.
pub fn short(said: &Said) -> ShortLine
    requires { IsBoundedReply said.now }
    ensures { result ≡ reply_text said.now }
{
    match said {
        Said::Ready(token) => token_line(b"ready ", token, b"\n"),
        Said::Installed(token) => token_line(b"installed ", token, b"\n"),
        Said::Unchanged(token) => token_line(b"unchanged ", token, b"\n"),
        Said::Serving(token, zones) => serving_line(token, *zones),
        Said::NoMemory => fixed_line(b"no memory\n"),
        Said::Watching(number) => watching_line(*number),
        Said::Bye => fixed_line(b"bye\n"),
        Said::Unknown => fixed_line(b"unknown\n"),
        Said::Refused(_) => unreachable!(),
    }
}

/// A text, unchanged.
fn fixed_line(text: &[u8]) -> ShortLine
    requires { length text.now ≤ 64 }
    ensures { result ≡ text.now }
{
    let mut line = ShortLine::new();
    line.append(text);
    line
}

/// A token between two texts.
fn token_line(word: &[u8], token: &Token, end: &[u8]) -> ShortLine
    requires { length word.now + length end.now ≤ 32 }
    ensures text { result ≡ word.now ++ (token.now ++ end.now) }
    ensures fits { length result ≤ length word.now + length end.now + 32 }
{
    let mut line = ShortLine::new();
    line.append(word);
    line.append(token.as_slice());
    line.append(end);
    line
}

/// The token and the number of zones of the release that is served.
fn serving_line(token: &Token, zones: u32) -> ShortLine
    ensures { result
        ≡ codes "serving " ++ (token.now ++ (codes " " ++ (decimal zones ++ codes "\n"))) }
{
    let mut line = token_line(b"serving ", token, b" ");
    let mut buffer = Buffer::new();
    put_ended(&mut line, buffer.format(zones).as_bytes(), b"\n");
    line
}

/// The number of a new subscriber.
fn watching_line(number: u32) -> ShortLine
    ensures { result ≡ codes "watching " ++ (decimal number ++ codes "\n") }
{
    let mut line = fixed_line(b"watching ");
    let mut buffer = Buffer::new();
    put_ended(&mut line, buffer.format(number).as_bytes(), b"\n");
    line
}

/// Appends a text and its end.
fn put_ended(line: &mut ShortLine, text: &[u8], end: &[u8])
    requires { length line.old + (length text.now + length end.now) ≤ 64 }
    ensures { line.new ≡ line.old ++ (text.now ++ end.now) }
{
    line.append(text);
    line.append(end);
}
