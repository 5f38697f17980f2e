//! Tests `connection` over the cases of a table on standard input. Reports each case whose answer
//! is not the expected one. The table explains its own lines.
#![tactic(auto)]

// One connection over a desk.
mod desks;
mod streams;

// A worker at a door.
mod doors;
mod growing_door;
mod listed_door;
mod workers;

use case_lines::{Answer, CaseFault, Row, Table};
use std::alloc::Global;
use std::io;
use std::sync::Wait;

fn main(rt: HostRuntime) -> io::Result<()> {
    let alloc = rt.alloc();
    let mut table = Table::new(alloc);
    for line in rt.lines(alloc) {
        let line = line?;
        if let Some(row) = table.row(line.as_str())? {
            if let Some(report) = table.judge(&row, answer(&rt, alloc, &row))? {
                println!(rt; "{report}")?;
            }
        }
    }
    let tally = table.tally();
    println!(rt; "{tally}")
}

/// The answer to a row.
fn answer<R: Wait>(rt: &R, alloc: Global, row: &Row) -> Answer {
    match row.kind() {
        "stream" => streams::stream(rt, alloc, row),
        "once" => streams::once(rt, alloc, row),
        "failing" => streams::failing(rt, alloc, row),
        "refused" => streams::without_publisher(rt, alloc, row),
        "door" => doors::door(rt, alloc, row),
        "computed" => streams::computations(rt, alloc, row),
        "worker" => workers::worker(rt, alloc, row),
        "laws" => laws(alloc),
        _ => Err(CaseFault::Strange),
    }
}

/// Calls the laws, which do nothing.
fn laws(alloc: Global) -> Answer {
    connection::nothing_needed();
    connection::one_closing();
    Ok(Vec::from_slice(alloc, b"called")?)
}
