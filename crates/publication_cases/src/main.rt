//! Tests `publication`, `desk_pool` and `answer_cache` over the cases of a table on standard input.
//! Reports each case whose answer is not the expected one. The table explains its own lines.
#![tactic(auto)]

// A publisher of numbers: its desks, and copies that refuse a call.
mod races;
mod refusals;
mod tallies;

// Cached answers.
mod echo;
mod gets;

// The flag that stops workers, and works next to a foreground task.
mod counted;
mod flags;
mod late_spawner;
mod pools;

use case_lines::{Answer, CaseFault, Row, Table};
use std::alloc::Global;
use std::io;
use std::sync::Wait;
use std::thread::Threads;

fn main(rt: HostRuntime) -> io::Result<()> {
    let alloc = rt.alloc();
    let mut table = Table::new(alloc);
    for line in rt.lines(alloc) {
        let line = line?;
        if let Some(row) = table.row(line.as_str())? {
            if let Some(report) = table.judge(&row, answer(&rt, alloc, &row))? {
                println!(rt; "{report}")?;
            }
        }
    }
    let tally = table.tally();
    println!(rt; "{tally}")
}

/// The answer to a row.
fn answer<R>(rt: &R, alloc: Global, row: &Row) -> Answer
where
    R: Threads + Wait + Copy + Send + Sync + 'static,
{
    match row.kind() {
        "works" => pools::works(rt, alloc, row),
        "race" => races::race(rt, alloc),
        "flag-beside" => flags::beside(rt, alloc),
        "flag" => flags::signs(alloc),
        "publishes" => refusals::publish(rt, alloc, row),
        "learns" => races::learns(rt, alloc),
        "get" => gets::gets(alloc, row),
        _ => Err(CaseFault::Strange),
    }
}
