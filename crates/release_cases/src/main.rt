//! Tests `release_manifest`, `leap_table`, `release_check`, `change_index`, `catalogue`,
//! `admission`, `installer` and `made_load` over the cases of a table on standard input. Reports
//! each case whose answer is not the expected one. The table explains its own lines.
#![tactic(auto)]

ghost use Rattle.std.specs.Prelude.{◌≡◌, map};
ghost use Rattle.admission.specs.Rules.{KeepsAll, allows};
ghost use Rattle.subscribers.specs.Wishes.{takes_by};

// Installs, and rules for them.
mod folder_installs;
mod installs;
mod joins;
mod manifest_installs;
mod rules;

// The made load.
mod loads;

use admission::{Changed, Delta, Kept, RuleKind, Rules, Test, changes_at_most, changes_no_past};
use case_lines::{Answer, Row, Table};
use installer::InstallPolicy;
use std::alloc::Global;
use std::io;
use std::sync::Wait;
use subscribers::{Want, WantTest, Wish, WishKind, is_any, is_past, is_under};
use td_base::MemoryStore;

#[tactic(auto, using(admission::proofs::lemmas::Keeping::both_kept))]
fn main(rt: HostRuntime) -> io::Result<()> {
    let alloc = rt.alloc();
    let at_most = |delta: &Delta, most: i64| -> bool
        ensures { result ≡ allows RuleKind.MaxChanged most delta.now }
    { changes_at_most(delta, most) };
    let no_past = |delta: &Delta, moment: i64| -> bool
        ensures { result ≡ allows RuleKind.NoPastChange moment delta.now }
    { changes_no_past(delta, moment) };
    let at_most: Test = Box::new(alloc, at_most)?;
    let no_past: Test = Box::new(alloc, no_past)?;
    let kept = [
        Kept::new(RuleKind::MaxChanged, at_most),
        Kept::new(RuleKind::NoPastChange, no_past),
    ];
    over_rules(&rt, alloc, &kept)
}

/// Runs the table, with a test for each kind of rule.
#[tactic(auto, using(subscribers::proofs::lemmas::Wanting::three_wanted))]
fn over_rules<R: Wait + Input + Print>(rt: &R, alloc: Global, kept: &[Kept]) -> io::Result<()>
    requires { KeepsAll (map (λ k. k.kind) kept.now) }
{
    let any = |change: &Changed, wish: &Wish| -> bool
        ensures { result ≡ takes_by WishKind.Any change.now wish.now }
    { is_any(change, wish) };
    let under = |change: &Changed, wish: &Wish| -> bool
        ensures { result ≡ takes_by WishKind.Under change.now wish.now }
    { is_under(change, wish) };
    let past = |change: &Changed, wish: &Wish| -> bool
        ensures { result ≡ takes_by WishKind.Past change.now wish.now }
    { is_past(change, wish) };
    let any: WantTest = Box::new(alloc, any)?;
    let under: WantTest = Box::new(alloc, under)?;
    let past: WantTest = Box::new(alloc, past)?;
    let wants = [
        Want::new(WishKind::Any, any),
        Want::new(WishKind::Under, under),
        Want::new(WishKind::Past, past),
    ];
    let asked = InstallPolicy::new(Rules::none(alloc), &wants);
    read_table(rt, alloc, kept, &asked)
}

/// Runs the table, and reports each row whose answer is not the expected one.
fn read_table<R: Wait + Input + Print>(
    rt: &R,
    alloc: Global,
    kept: &[Kept],
    asked: &InstallPolicy<'_>,
) -> io::Result<()>
    requires { KeepsAll (map (λ k. k.kind) kept.now) }
{
    let mut table = Table::new(alloc);
    let mut store = MemoryStore::new(alloc);
    for line in rt.lines(alloc) {
        try_line(rt, alloc, line, &mut table, &mut store, kept, asked)?;
    }
    let tally = table.tally();
    println!(rt; "{tally}")
}

/// Runs the row in a line, if it has one.
fn try_line<R: Wait + Print>(
    rt: &R,
    alloc: Global,
    line: io::Result<String>,
    table: &mut Table,
    store: &mut MemoryStore,
    kept: &[Kept],
    asked: &InstallPolicy<'_>,
) -> io::Result<()>
    requires { KeepsAll (map (λ k. k.kind) kept.now) }
{
    let line = line?;
    let Some(row) = table.row(line.as_str())? else {
        return Ok(());
    };
    let answer = answer(rt, alloc, &row, store, kept, asked);
    judge(rt, table, &row, answer)
}

/// Reports a row whose answer is not the expected one.
fn judge<R: Print>(rt: &R, table: &mut Table, row: &Row, answer: Answer) -> io::Result<()> {
    if let Some(report) = table.judge(row, answer)? {
        println!(rt; "{report}")?;
    }
    Ok(())
}

/// The answer to a row. `kept` has a test for each kind of rule; `asked` is borrowed by installs
/// without rules.
fn answer<R: Wait>(
    rt: &R,
    alloc: Global,
    row: &Row,
    store: &mut MemoryStore,
    kept: &[Kept],
    asked: &InstallPolicy<'_>,
) -> Answer
    requires { KeepsAll (map (λ k. k.kind) kept.now) }
{
    match row.kind() {
        "stated" => manifest_installs::counts(rt, alloc, row, store, kept, asked),
        "asked" => rules::decision(alloc, row, kept),
        "ruled" => folder_installs::counts(rt, alloc, row, store, kept, asked),
        _ => answer_without_rules(rt, alloc, row, store, asked),
    }
}

/// The answer to a row of another kind, which uses no rule.
fn answer_without_rules<R: Wait>(
    rt: &R,
    alloc: Global,
    row: &Row,
    store: &mut MemoryStore,
    asked: &InstallPolicy<'_>,
) -> Answer {
    match row.kind() {
        "install" => installs::install(rt, alloc, row, store, asked),
        "joins" => joins::joins(rt, alloc, row, store, asked),
        "open" => installs::open(rt, alloc, row, store),
        "serves" => manifest_installs::serves(rt, alloc, row, store),
        _ => answer_without_installs(alloc, row, store),
    }
}

/// The answer to a row of another kind, which installs nothing.
fn answer_without_installs(alloc: Global, row: &Row, store: &mut MemoryStore) -> Answer {
    match row.kind() {
        "load-manifest" | "load-file" | "load-requests" | "load-place-of" | "load-summary" => {
            loads::as_line(alloc, row)
        }
        "laws" => laws(alloc),
        _ => folder_rows::answer(alloc, row, store),
    }
}

/// Calls the laws, each of which does nothing.
fn laws(alloc: Global) -> Answer {
    folder_rows::laws();
    installer::given_is_served();
    Ok(Vec::new(alloc))
}
