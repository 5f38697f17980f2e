//! Runs the top call over the cases of a table on standard input, each over objects in memory.
//! Reports each case that ends otherwise than the table says. The table explains its own lines.
#![tactic(auto)]

ghost use Rattle.std.specs.Prelude.{◌≡◌, map};
ghost use Rattle.admission.specs.Rules.{KeepsAll, allows};
ghost use Rattle.subscribers.specs.Wishes.{WantsAll, takes_by};

// The table, line by line.
mod script;

// The objects in memory over which a case runs.
mod stage;

use admission::{Changed, Delta, Kept, RuleKind, Test, changes_at_most, changes_no_past};
use script::Script;
use std::alloc::Global;
use std::io;
use std::sync::Wait;
use std::thread::Threads;
use subscribers::{Want, WantTest, Wish, WishKind, is_any, is_past, is_under};

#[tactic(auto, using(admission::proofs::lemmas::Keeping::both_kept))]
fn main(rt: HostRuntime) -> io::Result<()> {
    let alloc = rt.alloc();
    let at_most = |delta: &Delta, most: i64| -> bool
        ensures { result ≡ allows RuleKind.MaxChanged most delta.now }
    { changes_at_most(delta, most) };
    let no_past = |delta: &Delta, moment: i64| -> bool
        ensures { result ≡ allows RuleKind.NoPastChange moment delta.now }
    { changes_no_past(delta, moment) };
    let at_most: Test = Box::new(alloc, at_most)?;
    let no_past: Test = Box::new(alloc, no_past)?;
    let kept = [
        Kept::new(RuleKind::MaxChanged, at_most),
        Kept::new(RuleKind::NoPastChange, no_past),
    ];
    over_rules(&rt, alloc, &kept)
}

/// Runs the table, with a test for each kind of rule.
#[tactic(auto, using(subscribers::proofs::lemmas::Wanting::three_wanted))]
fn over_rules<R>(rt: &R, alloc: Global, kept: &[Kept]) -> io::Result<()>
where
    R: Threads + Wait + Input + Print + Copy + Send + 'static,
    requires { KeepsAll (map (λ k. k.kind) kept.now) }
{
    let any = |change: &Changed, wish: &Wish| -> bool
        ensures { result ≡ takes_by WishKind.Any change.now wish.now }
    { is_any(change, wish) };
    let under = |change: &Changed, wish: &Wish| -> bool
        ensures { result ≡ takes_by WishKind.Under change.now wish.now }
    { is_under(change, wish) };
    let past = |change: &Changed, wish: &Wish| -> bool
        ensures { result ≡ takes_by WishKind.Past change.now wish.now }
    { is_past(change, wish) };
    let any: WantTest = Box::new(alloc, any)?;
    let under: WantTest = Box::new(alloc, under)?;
    let past: WantTest = Box::new(alloc, past)?;
    let wants = [
        Want::new(WishKind::Any, any),
        Want::new(WishKind::Under, under),
        Want::new(WishKind::Past, past),
    ];
    read_table(rt, alloc, kept, &wants)
}

/// Runs the table, and reports each run that ended otherwise than it says.
fn read_table<R>(rt: &R, alloc: Global, kept: &[Kept], wants: &[Want]) -> io::Result<()>
where
    R: Threads + Wait + Input + Print + Copy + Send + 'static,
    requires rules { KeepsAll (map (λ k. k.kind) kept.now) }
    requires wants { WantsAll (map (λ w. w.kind) wants.now) }
{
    let mut script = Script::new(alloc);
    for line in rt.lines(alloc) {
        let line = line?;
        if let Some(report) = script.read_line(rt, kept, wants, line.as_str())? {
            println!(rt; "{report}")?;
        }
    }
    let summary = script.summary()?;
    println!(rt; "{summary}")
}
