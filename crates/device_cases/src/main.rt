//! Tests `devices` over the cases of a table on standard input, and reports each case whose answer
//! is not the expected one. The table explains its own lines.
#![tactic(auto)]

// Streams and files.
mod files;
mod streams;

// Threads, and the small numbers of their rows.
mod gates;
mod small;
mod squares;

// The arguments of a command line, and the message for a failure.
mod edge;

// What a door decides about its connections.
mod decisions;

// A TCP listener, a door at it, and clients.
mod fault;
mod listens;
mod talk;
mod talks;

use case_lines::{Answer, CaseFault, Row, Table};
use std::alloc::Global;
use std::io;
use std::io::Eprint;
use std::net::{Net, TcpListener, TcpStream};
use std::rt::Files;
use std::sync::Wait;
use std::thread::Threads;
use std::time::Clock;

fn main(rt: HostRuntime) -> io::Result<()> {
    let alloc = rt.alloc();
    let mut table = Table::new(alloc);
    for line in rt.lines(alloc) {
        let line = line?;
        try_line(&rt, alloc, &mut table, line.as_str())?;
    }
    let tally = table.tally();
    println!(rt; "{tally}")
}

/// Runs the next line, and reports it if its answer is not the expected one.
fn try_line<R>(rt: &R, alloc: Global, table: &mut Table, line: &str) -> io::Result<()>
where
    R: Net<Listener = TcpListener, Stream = TcpStream>
        + Clock
        + Eprint
        + Files
        + Threads
        + Wait
        + Print
        + Copy
        + Send
        + 'static,
{
    let Some(row) = table.row(line)? else {
        return Ok(());
    };
    let answer = answer(rt, alloc, &row);
    if let Some(report) = table.judge(&row, answer)? {
        println!(rt; "{report}")?;
    }
    Ok(())
}

/// The answer to a row.
fn answer<R>(rt: &R, alloc: Global, row: &Row) -> Answer
where
    R: Net<Listener = TcpListener, Stream = TcpStream>
        + Clock
        + Eprint
        + Files
        + Threads
        + Wait
        + Copy
        + Send
        + 'static,
{
    match row.kind() {
        "file" => files::file(rt, alloc, row),
        "talk" => talks::talk(rt, alloc, row),
        "listen" => listens::listen(rt, alloc, row),
        "squares" => squares::squares(rt, alloc, row),
        "gates" => gates::beside(rt, alloc, row),
        _ => alone(alloc, row),
    }
}

/// The answer to a row that needs nothing of the system.
fn alone(alloc: Global, row: &Row) -> Answer {
    match row.kind() {
        "reads" => streams::reads(alloc, row),
        "broken" => streams::read_broken(alloc),
        "writes" => streams::writes(alloc, row),
        "gates-alone" => gates::alone(alloc, row),
        "gates-turned" => gates::second_first(alloc, row),
        "timeouts" => decisions::timeouts(alloc, row),
        "queues" => decisions::queues(alloc, row),
        "turn" => decisions::turn(alloc, row),
        "limit" => decisions::limit(alloc, row),
        "long" => decisions::long(alloc, row),
        "costly" => decisions::costly(alloc, row),
        "failures" => decisions::failures(alloc, row),
        "words" => edge::words(alloc, row),
        "complaint" => edge::complaint(alloc, row),
        _ => Err(CaseFault::Strange),
    }
}
