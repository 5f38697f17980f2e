//! Tests `td_base` and `td_civil` over the cases of a table on standard input, and reports each
//! case whose answer is not the expected one. The table explains its own lines.
#![tactic(auto)]

// Numbers, names and texts.
mod lists;
mod names;
mod numbers;
mod texts;

// Objects in memory.
mod conns;
mod doors;
mod networks;
mod stores;
mod streams;
mod works;

// Moments and local time.
mod moments;
mod states;

// What rows describe.
mod given;

use case_lines::{Answer, Row, Table};
use std::alloc::Global;
use std::io;
use std::sync::Wait;
use std::thread::Threads;

fn main(rt: HostRuntime) -> io::Result<()> {
    let alloc = rt.alloc();
    let mut table = Table::new(alloc);
    for line in rt.lines(alloc) {
        let line = line?;
        try_line(&rt, alloc, &mut table, line.as_str())?;
    }
    let tally = table.tally();
    println!(rt; "{tally}")
}

/// Runs the next line, and reports it if its answer is not the expected one.
fn try_line<R: Threads + Wait + Print + Copy + Send + 'static>(
    rt: &R,
    alloc: Global,
    table: &mut Table,
    line: &str,
) -> io::Result<()> {
    let Some(row) = table.row(line)? else {
        return Ok(());
    };
    let answer = answer(rt, alloc, &row);
    if let Some(report) = table.judge(&row, answer)? {
        println!(rt; "{report}")?;
    }
    Ok(())
}

/// The answer to a row.
fn answer<R: Threads + Wait + Copy + Send + 'static>(rt: &R, alloc: Global, row: &Row) -> Answer {
    match row.kind() {
        "joined-work" => works::join_works(rt, alloc, row),
        "threaded-work" => works::work_in_thread(rt, alloc, row),
        "refused-work" => works::work_without_memory(rt, alloc, row),
        _ => of_objects(alloc, row),
    }
}

fn of_objects(alloc: Global, row: &Row) -> Answer {
    match row.kind() {
        "source" => streams::source(alloc, row),
        "sink" => streams::sink(alloc, row),
        "read-to-end" => streams::to_end(alloc, row),
        "write-whole" => streams::whole(alloc, row),
        "store" => stores::store(alloc, row),
        "conn" => conns::conn(alloc, row),
        "joined" => conns::echoes(alloc, row),
        "door" => doors::door(alloc, row),
        "network" => networks::network(alloc, row),
        "upstream" => networks::upstream(alloc, row),
        _ => of_moments(alloc, row),
    }
}

fn of_moments(alloc: Global, row: &Row) -> Answer {
    match row.kind() {
        "moment" => moments::read(alloc, row),
        "utc" => moments::utc(alloc, row),
        "local" => moments::local(alloc, row),
        "year" => moments::year(alloc, row),
        "before" => moments::before(alloc, row),
        "day" => moments::day(alloc, row),
        "date" => moments::date(alloc, row),
        "is-date" => moments::judge(alloc, row),
        "state" => states::state(alloc, row),
        "laws" => states::laws(alloc),
        _ => of_texts(alloc, row),
    }
}

fn of_texts(alloc: Global, row: &Row) -> Answer {
    match row.kind() {
        "decimal" => numbers::decimal(alloc, row),
        "hex" => numbers::hex(alloc, row),
        "sized" => numbers::with_length(alloc, row),
        "read-decimal" => numbers::read(alloc, row),
        "bytes" => lists::bytes(alloc, row),
        "compare" => lists::compare(alloc, row),
        "items" => lists::items(alloc, row),
        "short" => lists::short(alloc, row),
        "places" => lists::places(alloc, row),
        "cut" => texts::cut(alloc, row),
        "trim" => texts::trim(alloc, row),
        "part" => texts::part(alloc, row),
        "any-case" => texts::any_case(alloc, row),
        _ => names::judge(alloc, row),
    }
}
