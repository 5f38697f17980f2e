//! A mirror that follows a server whose answers are in rows.
use case_lines::{Answer, AnswerBuilder, CaseFault, Row};
use mirror::SyncFault;
use std::alloc::Global;
use sync_core::Mirror;
use td_base::{Bytes, Exchange, Faulty, Items, MemoryUpstream, NoMemory};

/// The host of the requests.
const HOST: &[u8] = b"y";

/// `sync TIMES ANSWER ..`: syncs the mirror once with a server that gives these answers, the whole
/// sequence TIMES times. An exchange fails where the answer is `lost`. After the last, answers are
/// empty. Prints the requested targets, each after a bar, and the outcome.
pub fn sync(alloc: Global, mirror: &mut Mirror, row: &Row) -> Answer {
    let mut upstream = server(alloc, row)?;
    let outcome = mirror::sync(alloc, mirror, HOST, &mut upstream);
    as_line(alloc, upstream.inner().told(), outcome)
}

/// The requested targets, and the outcome.
fn as_line(alloc: Global, exchanges: &[Exchange], outcome: Result<(), SyncFault>) -> Answer {
    let mut builder = AnswerBuilder::new(alloc);
    for exchange in exchanges {
        add_target(&mut builder, exchange);
    }
    add_outcome(&mut builder, outcome);
    builder.finish()
}

/// The server that gives the answers of a row.
fn server(alloc: Global, row: &Row) -> Result<Faulty<MemoryUpstream>, CaseFault> {
    let times = row.number(0)?;
    let failing = failing(alloc, times, answers(row))?;
    let script = script(alloc, times, answers(row))?;
    Ok(Faulty::new(script, failing))
}

/// The words of a row that are answers.
fn answers(row: &Row) -> &[Vec<u8>] {
    row.words().get(1..).unwrap_or(&[])
}

fn is_lost(answer: &Vec<u8>) -> bool {
    answer.as_slice() == b"lost".as_slice()
}

/// The numbers of the exchanges that fail, from 1.
fn failing(alloc: Global, times: u64, answers: &[Vec<u8>]) -> Result<Items<u64>, NoMemory> {
    let mut failing = Items::new(alloc);
    let mut calls = 0u64;
    for _ in 0..times {
        add_failing(&mut failing, calls, answers)?;
        calls = calls.saturating_add(answers.len() as u64);
    }
    Ok(failing)
}

/// Adds the numbers of those exchanges that fail, after so many others.
fn add_failing(failing: &mut Items<u64>, calls: u64, answers: &[Vec<u8>]) -> Result<(), NoMemory> {
    let mut calls = calls;
    for answer in answers {
        calls = calls.saturating_add(1);
        if is_lost(answer) {
            failing.push(calls)?;
        }
    }
    Ok(())
}

/// The answers of all exchanges that do not fail.
fn script(alloc: Global, times: u64, answers: &[Vec<u8>]) -> Result<MemoryUpstream, NoMemory> {
    let mut script = MemoryUpstream::new(alloc);
    for _ in 0..times {
        add_answers(alloc, &mut script, answers)?;
    }
    Ok(script)
}

fn add_answers(
    alloc: Global,
    script: &mut MemoryUpstream,
    answers: &[Vec<u8>],
) -> Result<(), NoMemory> {
    for answer in answers {
        if !is_lost(answer) {
            add_answer(alloc, script, answer.as_slice())?;
        }
    }
    Ok(())
}

fn add_answer(alloc: Global, script: &mut MemoryUpstream, answer: &[u8]) -> Result<(), NoMemory> {
    let answer = Bytes::from_slice(alloc, answer)?;
    script.push(answer)
}

/// Appends the text between the first two blanks of a request.
fn add_target(builder: &mut AnswerBuilder, exchange: &Exchange) {
    builder.add_bytes(b"|");
    if let Some(target) = exchange
        .request
        .as_slice()
        .split(|byte| *byte == b' ')
        .nth(1)
    {
        builder.add_bytes(target);
    }
    builder.add_bytes(b" ");
}

fn add_outcome(builder: &mut AnswerBuilder, outcome: Result<(), SyncFault>) {
    match outcome {
        Ok(()) => builder.add_bytes(b"settled"),
        Err(SyncFault::NoMemory) => builder.fail(CaseFault::NoMemory),
        Err(fault) => builder.add_display(&fault),
    }
}
