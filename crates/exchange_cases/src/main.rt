//! Tests the crates of heads, targets, answers, documents, consoles and mirrors over the cases of a
//! table on standard input. Reports each case whose answer is not the expected one. The table
//! explains its own lines.
#![tactic(auto)]

// Documents that are written, and that are parsed.
mod documents;
mod problems;
mod readings;

// Requests of a mirror, the replies to them, and a mirror that receives answers or syncs.
mod following;
mod holding;
mod syncs;
mod wire;

// Targets, patterns, fields of negotiation, and the answers of actions over a release.
mod fields;
mod patterns;
mod requests;
mod targets;

// Heads of requests, and replies.
mod heads;
mod replies;

// A console.
mod console_replies;
mod lines;

// Laws, and what rows of heads, replies and a console share.
mod laws;
mod pieces;

use case_lines::{Answer, CaseFault, Row, Table};
use std::alloc::{AllocError, Global};
use std::io;
use sync_core::Mirror;
use td_base::MemoryStore;

fn main(rt: HostRuntime) -> io::Result<()> {
    let alloc = rt.alloc();
    let mut mirror = Mirror::empty(alloc);
    let mut store = MemoryStore::new(alloc);
    read_table(&rt, alloc, &mut mirror, &mut store)
}

/// Runs the table, and reports each row whose answer is not the expected one.
fn read_table<R: Input + Print>(
    rt: &R,
    alloc: Global,
    mirror: &mut Mirror,
    store: &mut MemoryStore,
) -> io::Result<()> {
    let mut table = Table::new(alloc);
    for line in rt.lines(alloc) {
        let line = line?;
        let report = report_on(alloc, &mut table, mirror, store, line.as_str())?;
        if let Some(report) = report {
            println!(rt; "{report}")?;
        }
    }
    let tally = table.tally();
    println!(rt; "{tally}")
}

/// The report on the next line.
fn report_on(
    alloc: Global,
    table: &mut Table,
    mirror: &mut Mirror,
    store: &mut MemoryStore,
    line: &str,
) -> Result<Option<String>, AllocError> {
    match table.row(line)? {
        Some(row) => {
            let answer = answer(alloc, mirror, store, &row);
            table.judge(&row, answer)
        }
        None => Ok(None),
    }
}

/// The answer to a row: here of a mirror that follows another server.
fn answer(alloc: Global, mirror: &mut Mirror, store: &mut MemoryStore, row: &Row) -> Answer {
    match row.kind() {
        "begin" => following::begin(alloc, mirror),
        "told" => following::take_reply(alloc, mirror, row),
        "sync" => syncs::sync(alloc, mirror, row),
        "mirror-held" => holding::release_lines(alloc, mirror),
        _ => of_releases(alloc, store, row),
    }
}

fn of_releases(alloc: Global, store: &mut MemoryStore, row: &Row) -> Answer {
    match row.kind() {
        "file" => requests::file(alloc, store, row),
        "request" => requests::request(alloc, store, row),
        _ => of_documents(alloc, row),
    }
}

fn of_documents(alloc: Global, row: &Row) -> Answer {
    match row.kind() {
        "list" => documents::list(alloc, row),
        "expansion" => documents::expansion(alloc, row),
        "leap-table" => documents::leap_table(alloc),
        "printed" => documents::value_text(alloc, row),
        "problem" => problems::problem(alloc, row),
        "capabilities" => problems::capabilities(alloc, row),
        "list-fault" => readings::list_fault(alloc, row),
        "read-list" => readings::list(alloc, row),
        "read-problem" => readings::problem(alloc, row),
        _ => of_targets(alloc, row),
    }
}

fn of_targets(alloc: Global, row: &Row) -> Answer {
    match row.kind() {
        "target" => targets::target(alloc, row),
        "pattern" => patterns::pattern(alloc, row),
        "matches" => patterns::matching(alloc, row),
        "choose" => fields::choice(alloc, row),
        "none-match" => fields::holding(alloc, row),
        _ => of_messages(alloc, row),
    }
}

fn of_messages(alloc: Global, row: &Row) -> Answer {
    match row.kind() {
        "mirror-request" => wire::request(alloc, row),
        "mirror-reply" => wire::reply(alloc, row),
        "heads" => heads::heads(alloc, row),
        "long" => heads::long(alloc, row),
        "held" => heads::sizes_after(alloc, row),
        "reply" => replies::reply(alloc, row),
        "fixed" => replies::closing_reply(alloc, row),
        _ => of_consoles(alloc, row),
    }
}

fn of_consoles(alloc: Global, row: &Row) -> Answer {
    match row.kind() {
        "lines" => lines::lines(alloc, row),
        "long-line" => lines::long_line(alloc, row),
        "said" => console_replies::console_reply(alloc, row),
        "news" => console_replies::news(alloc, row),
        _ => of_laws(alloc, row),
    }
}

fn of_laws(alloc: Global, row: &Row) -> Answer {
    match row.kind() {
        "secondary-laws" => laws::of_secondaries(alloc),
        "mirror-laws" => laws::of_mirrors(alloc),
        "connection-laws" => laws::of_connections(alloc),
        _ => Err(CaseFault::Strange),
    }
}
