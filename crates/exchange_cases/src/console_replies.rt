//! Replies to an operator.
ghost use Rattle.std.specs.Prelude.{IfOk};
ghost use Rattle.console.specs.Replies.{IsBoundedReply};

use crate::pieces::join_words;
use case_lines::{Answer, CaseFault, Row, number};
use console::{Said, news_reply, reply, short};
use std::alloc::Global;
use subscribers::{Names, Notice};
use td_base::{Bytes, NoMemory, Token, texts};

/// The text before an appended reply.
const BEFORE: &[u8] = b"before\n";

/// `said KIND ..`: the reply, appended and, unless it is a refusal, in a fixed buffer. After
/// `ready`, `installed`, `unchanged` and `serving` comes a token; `serving` also has the number of
/// zones. After `watching` comes a number, and after `refused` the fault.
pub fn console_reply(alloc: Global, row: &Row) -> Answer {
    match row.text(0)? {
        "refused" => refusal(alloc, row),
        _ => bounded_text(alloc, row),
    }
}

fn bounded_text(alloc: Global, row: &Row) -> Answer {
    let said = bounded_reply(row)?;
    both(alloc, &said)
}

/// The reply that is described, unless it is a refusal.
fn bounded_reply(row: &Row) -> Result<Said, CaseFault>
    ensures { IfOk result IsBoundedReply }
{
    match row.text(0)? {
        "watching" => Ok(Said::Watching(count(row, 1)?)),
        "no-memory" => Ok(Said::NoMemory),
        "bye" => Ok(Said::Bye),
        "unknown" => Ok(Said::Unknown),
        kind => of_release(kind, row),
    }
}

/// The reply that is described, if it has a token.
fn of_release(kind: &str, row: &Row) -> Result<Said, CaseFault>
    ensures { IfOk result IsBoundedReply }
{
    let token = token(row.word(1)?)?;
    match kind {
        "ready" => Ok(Said::Ready(token)),
        "installed" => Ok(Said::Installed(token)),
        "unchanged" => Ok(Said::Unchanged(token)),
        "serving" => serving(token, row),
        _ => Err(CaseFault::Strange),
    }
}

fn serving(token: Token, row: &Row) -> Result<Said, CaseFault>
    ensures { IfOk result IsBoundedReply }
{
    match count(row, 2) {
        Ok(zones) => Ok(Said::Serving(token, zones)),
        Err(fault) => Err(fault),
    }
}

fn count(row: &Row, at: usize) -> Result<u32, CaseFault> {
    small(row.number(at)?)
}

fn small(number: u64) -> Result<u32, CaseFault> {
    u32::try_from(number).ok().ok_or(CaseFault::Strange)
}

fn refusal(alloc: Global, row: &Row) -> Answer {
    let fault = join_words(alloc, row.words().get(1..).unwrap_or(&[]))?;
    append(alloc, &Said::Refused(Bytes::from(fault)))
}

/// The reply in a fixed buffer, if the appended one is the same.
fn both(alloc: Global, said: &Said) -> Answer
    requires { IsBoundedReply said.now }
{
    let text = append(alloc, said)?;
    if short(said).as_slice() == text.as_slice() {
        Ok(text)
    } else {
        case_lines::bytes(alloc, b"two replies")
    }
}

/// The appended reply.
fn append(alloc: Global, said: &Said) -> Answer {
    let mut out = Bytes::from_slice(alloc, BEFORE)?;
    reply(&mut out, said)?;
    after(alloc, &out)
}

/// What was appended.
fn after(alloc: Global, out: &Bytes) -> Answer {
    match out.as_slice().strip_prefix(BEFORE) {
        Some(text) => case_lines::bytes(alloc, text),
        None => Err(CaseFault::Strange),
    }
}

/// `news PLACE:TZID,TZID ..`: the reply to `news`, with a notice for each word.
pub fn news(alloc: Global, row: &Row) -> Answer {
    let notices = notices(alloc, row.words())?;
    news_of(alloc, notices.as_slice())
}

fn notices(alloc: Global, words: &[Vec<u8>]) -> Result<Vec<Notice>, CaseFault> {
    let mut notices = Vec::new(alloc);
    for word in words {
        add_notice(alloc, &mut notices, word.as_slice())?;
    }
    Ok(notices)
}

fn news_of(alloc: Global, notices: &[Notice]) -> Answer {
    let mut out = Bytes::from_slice(alloc, BEFORE)?;
    news_reply(&mut out, notices)?;
    after(alloc, &out)
}

fn add_notice(alloc: Global, notices: &mut Vec<Notice>, word: &[u8]) -> Result<(), CaseFault> {
    let (place, rest) = texts::cut(word, b':');
    let place = place_of(place)?;
    let tzids = names(alloc, rest)?;
    notices.push(Notice { place, tzids })?;
    Ok(())
}

fn place_of(word: &[u8]) -> Result<u32, CaseFault> {
    small(number(word)?)
}

fn names(alloc: Global, text: Option<&[u8]>) -> Result<Names, CaseFault> {
    match text {
        Some(text) => Ok(names_in(alloc, text)?),
        None => Err(CaseFault::Strange),
    }
}

fn names_in(alloc: Global, text: &[u8]) -> Result<Names, NoMemory> {
    let mut names = Names::new(alloc);
    for name in text.split(|byte| *byte == b',') {
        add_name(alloc, &mut names, name)?;
    }
    Ok(names)
}

fn add_name(alloc: Global, names: &mut Names, name: &[u8]) -> Result<(), NoMemory> {
    let name = Bytes::from_slice(alloc, name)?;
    names.push(name)
}

fn token(word: &[u8]) -> Result<Token, CaseFault> {
    let mut token = Token::new();
    if word.len() > 32 {
        return Err(CaseFault::Strange);
    }
    token.append(word);
    Ok(token)
}
