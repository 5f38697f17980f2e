//! Tests the crates of zone files, rules, calendars and calendar readers over the cases of a table
//! on standard input. Reports each case whose answer is not the expected one. The table explains
//! its own lines.
#![tactic(auto)]

// Zone files, the leap seconds in them, and TZ strings.
mod files;
mod footers;
mod laws;
mod leaps;
mod plans;

// Content lines and yearly rules.
mod lines;
mod rules;

// Zones, and calendars of them.
mod calendars;
mod observances;
mod zones;

// Parsing calendars.
mod reading;
mod showing;

use calendars::CalendarForm;
use case_lines::{Answer, CaseFault, Row, Table};
use std::alloc::Global;
use std::io;

fn main(rt: HostRuntime) -> io::Result<()> {
    let alloc = rt.alloc();
    let mut table = Table::new(alloc);
    for line in rt.lines(alloc) {
        let line = line?;
        try_line(&rt, alloc, &mut table, line.as_str())?;
    }
    let tally = table.tally();
    println!(rt; "{tally}")
}

/// Runs the next line, and reports it if its answer is not the expected one.
fn try_line(rt: &impl Print, alloc: Global, table: &mut Table, line: &str) -> io::Result<()> {
    let Some(row) = table.row(line)? else {
        return Ok(());
    };
    let answer = answer(alloc, &row);
    if let Some(report) = table.judge(&row, answer)? {
        println!(rt; "{report}")?;
    }
    Ok(())
}

/// The answer to a row.
fn answer(alloc: Global, row: &Row) -> Answer {
    match row.kind() {
        "slim" => plans::slim_file(alloc, row),
        "file" => files::file(alloc, row),
        "start" => files::start(alloc, row),
        "edited" => files::edit(alloc, row),
        "no-memory" => files::no_memory(alloc),
        "leaps" => leaps::steps(alloc, row),
        "laws" => laws::laws(alloc),
        _ => of_rules(alloc, row),
    }
}

fn of_rules(alloc: Global, row: &Row) -> Answer {
    match row.kind() {
        "rule" => footers::rule(alloc, row),
        "footer-state" => footers::state(alloc, row),
        "next" => footers::next(alloc, row),
        "onset" => footers::edge(alloc, row),
        "carry" => rules::carry(alloc, row),
        "valid" => rules::valid(alloc, row),
        "day" => rules::day(alloc, row),
        _ => of_zones(alloc, row),
    }
}

fn of_zones(alloc: Global, row: &Row) -> Answer {
    match row.kind() {
        "zone" => zones::zone(alloc, row),
        "printed" => zones::fault_text(alloc, row),
        "state" => zones::state(alloc, row),
        "differ" => zones::differ(alloc, row),
        "observances" => observances::observances(alloc, row),
        "same-observances" => observances::same(alloc, row),
        _ => of_calendars(alloc, row),
    }
}

fn of_calendars(alloc: Global, row: &Row) -> Answer {
    match row.kind() {
        "line" => lines::line(alloc, row),
        "unfold" => lines::unfold(alloc, row),
        "calendar" => calendars::calendar(alloc, row, CalendarForm::Lines),
        "json-calendar" => calendars::calendar(alloc, row, CalendarForm::Json),
        "read" => reading::read(alloc, row),
        "expand" => reading::expand(alloc, row),
        _ => Err(CaseFault::Strange),
    }
}
