//! Conversations at a door, step by step.
use crate::fault::fault_of_call;
use crate::listens::open;
use crate::talk::{Talk, client};
use case_lines::{Answer, AnswerBuilder, CaseFault, Row, debug_text, number};
use std::alloc::Global;
use std::io::Eprint;
use std::net::{Net, TcpListener, TcpStream};
use std::time::Clock;
use td_base::{ReadStep, texts};

/// How often the clock is read at most while time passes.
const MOST_LOOKS: u64 = 100_000_000;

/// `talk STEP STEP ..`: the output of the steps at a door at a free port, with a bar after each
/// step that has output. A step is a name, and may have a number or a text after a colon.
pub fn talk<R>(rt: &R, alloc: Global, row: &Row) -> Answer
where
    R: Net<Listener = TcpListener, Stream = TcpStream> + Clock + Eprint + Copy,
{
    let mut talk = Talk::new(alloc, open(rt, alloc)?);
    let mut builder = AnswerBuilder::new(alloc);
    for word in row.words() {
        if let Err(fault) = step(rt, alloc, &mut talk, word.as_slice(), &mut builder) {
            builder.fail(fault);
            break;
        }
    }
    builder.finish()
}

/// Performs a step.
fn step<R>(
    rt: &R,
    alloc: Global,
    talk: &mut Talk<R>,
    word: &[u8],
    builder: &mut AnswerBuilder,
) -> Result<(), CaseFault>
where
    R: Net<Stream = TcpStream> + Clock + Eprint + Copy,
{
    let (name, text) = texts::cut(word, b':');
    let text = text.unwrap_or(&[]);
    match name {
        b"connect" => client(rt, talk),
        b"send" => talk.send(text),
        b"shut" => talk.shut(),
        b"finish" => talk.finish(),
        b"pause" => pause(rt, number(text)?),
        b"turn" => {
            let _ = talk.twice();
            Ok(())
        }
        _ => {
            let given = telling(alloc, talk, name, text)?;
            builder.add_answer(Ok(given));
            Ok(())
        }
    }
}

/// Lets so many milliseconds pass.
fn pause<R: Clock>(rt: &R, millis: u64) -> Result<(), CaseFault> {
    let end = millis_of(rt)?.saturating_add(millis);
    for _ in 0..MOST_LOOKS {
        if millis_of(rt)? >= end {
            break;
        }
    }
    Ok(())
}

/// The reading of the clock in milliseconds.
fn millis_of<R: Clock>(rt: &R) -> Result<u64, CaseFault> {
    let time = rt.monotonic().map_err(fault_of_call)?;
    Ok(u64::try_from(time.as_millis()).unwrap_or(u64::MAX))
}

/// The output of a step that has output.
fn telling<R: Clock + Eprint + Copy>(
    alloc: Global,
    talk: &mut Talk<R>,
    name: &[u8],
    text: &[u8],
) -> Answer {
    match name {
        b"read" => read(alloc, talk, number(text)?),
        b"write" => debug_text(alloc, &talk.write(text)?),
        b"write-all" => write_all(alloc, talk, number(text)?),
        b"pump" => pump(alloc, talk, number(text)?),
        b"text" => Ok(talk.text(alloc)?.into_bytes()),
        _ => looking(alloc, talk, name),
    }
}

/// The output of a step that shows the state of the door.
fn looking<R: Clock + Eprint + Copy>(alloc: Global, talk: &mut Talk<R>, name: &[u8]) -> Answer {
    match name {
        b"twice" => debug_text(alloc, &talk.twice()),
        b"next" => debug_text(alloc, &talk.next()),
        b"resting" => debug_text(alloc, &talk.door.idle()),
        b"failure" => debug_text(alloc, &talk.door.failure()),
        _ => Err(CaseFault::Strange),
    }
}

/// A read of the connection into a buffer of this size, and its result.
fn read<R: Clock + Eprint + Copy>(alloc: Global, talk: &mut Talk<R>, size: u64) -> Answer {
    let mut room = vec![in alloc; 0; size as usize]?;
    let step = talk.read(room.as_mut_slice())?;
    let mut builder = AnswerBuilder::new(alloc);
    builder.add_debug(&step);
    if let ReadStep::Got(count) = step {
        builder.add_bytes(b" ");
        builder.add_bytes(room.get(..count).unwrap_or(&[]));
    }
    builder.finish()
}

/// How many of this many bytes the connection took.
fn write_all<R: Clock + Eprint + Copy>(alloc: Global, talk: &mut Talk<R>, size: u64) -> Answer {
    let bytes = vec![in alloc; b'y'; size as usize]?;
    let took = talk.write_all(bytes.as_slice())?;
    debug_text(alloc, &took)
}

/// How many bytes the last client read, of at most this many.
fn pump<R: Clock + Eprint + Copy>(alloc: Global, talk: &mut Talk<R>, most: u64) -> Answer {
    let mut room = vec![in alloc; 0; 2_000_000]?;
    let got = talk.pump(room.as_mut_slice(), most as usize)?;
    debug_text(alloc, &got)
}
