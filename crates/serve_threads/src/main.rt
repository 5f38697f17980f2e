//! A run of `serve` whose workers are threads of the system. Its two doors are in memory, with one
//! connection each. The second request of either arrives only once the first of the other was
//! answered. On one thread, one after the other, they would not both be served. The output to the
//! operator is printed first, and then how each connection ended.
#![tactic(auto)]

ghost use Rattle.std.specs.Prelude.{◌≡◌};
ghost use Rattle.admission.specs.Rules.{allows};
ghost use Rattle.subscribers.specs.Wishes.{takes_by};

use admission::{Changed, Delta, Kept, RuleKind, Test, changes_at_most, changes_no_past};
use devices::{GateDoor, RealSink, RealSource, RealSpawner, RealStore, gate_pair};
use std::alloc::Global;
use std::io;
use std::io::{Error, ErrorKind};
use subscribers::{Want, WantTest, Wish, WishKind, is_any, is_past, is_under};
use td_base::{Bytes, End, MemoryNetwork, MemoryUpstream, NoMemory};

/// How many turns a read waits for the other connection.
const TURNS: u32 = 1_000_000;

#[tactic(auto, using(admission::proofs::lemmas::Keeping::both_kept, subscribers::proofs::lemmas::Wanting::three_wanted))]
fn main(rt: HostRuntime) -> io::Result<()> {
    let at_most = |delta: &Delta, most: i64| -> bool
        ensures { result ≡ allows RuleKind.MaxChanged most delta.now }
    { changes_at_most(delta, most) };
    let no_past = |delta: &Delta, moment: i64| -> bool
        ensures { result ≡ allows RuleKind.NoPastChange moment delta.now }
    { changes_no_past(delta, moment) };
    let at_most: Test = Box::new(rt.alloc(), at_most)?;
    let no_past: Test = Box::new(rt.alloc(), no_past)?;
    let kept = [
        Kept::new(RuleKind::MaxChanged, at_most),
        Kept::new(RuleKind::NoPastChange, no_past),
    ];
    let any = |change: &Changed, wish: &Wish| -> bool
        ensures { result ≡ takes_by WishKind.Any change.now wish.now }
    { is_any(change, wish) };
    let under = |change: &Changed, wish: &Wish| -> bool
        ensures { result ≡ takes_by WishKind.Under change.now wish.now }
    { is_under(change, wish) };
    let past = |change: &Changed, wish: &Wish| -> bool
        ensures { result ≡ takes_by WishKind.Past change.now wish.now }
    { is_past(change, wish) };
    let any: WantTest = Box::new(rt.alloc(), any)?;
    let under: WantTest = Box::new(rt.alloc(), under)?;
    let past: WantTest = Box::new(rt.alloc(), past)?;
    let wants = [
        Want::new(WishKind::Any, any),
        Want::new(WishKind::Under, under),
        Want::new(WishKind::Past, past),
    ];
    let mut network = gates(rt.alloc()).map_err(out_of_memory)?;
    let words = words(rt.alloc()).map_err(out_of_memory)?;
    let mut store = RealStore::new(&rt);
    let mut input = RealSource::new(rt.stdin());
    let mut output = RealSink::new(rt.stdout());
    let mut spawner = RealSpawner::new();
    let outcome = td_top::run(
        &rt,
        rt.alloc(),
        words.as_slice(),
        &kept,
        &wants,
        &mut store,
        &mut input,
        &mut output,
        &mut network,
        &mut spawner,
    );
    for door in &outcome.doors {
        let (end, places, answers) = end_of(door);
        println!(rt; "{end}, {places} places, {answers} answers")?;
    }
    println!(rt; "status {}", outcome.status)?;
    Ok(())
}

fn out_of_memory(_: NoMemory) -> Error {
    Error::from(ErrorKind::OutOfMemory)
}

/// The two doors, at any address.
fn gates(alloc: Global) -> Result<MemoryNetwork<GateDoor, MemoryUpstream>, NoMemory> {
    let (left, right) = gate_pair(alloc, TURNS)?;
    let mut network = MemoryNetwork::new(alloc);
    network.push(left)?;
    network.push(right)?;
    Ok(network)
}

/// The arguments of the command line.
fn words(alloc: Global) -> Result<Vec<Bytes>, NoMemory> {
    let mut words = Vec::new(alloc);
    for word in ["serve", "x", "2", "a"] {
        words.push(Bytes::from_slice(alloc, word.as_bytes())?)?;
    }
    Ok(words)
}

/// How the connection of a door ended, how many of its requests have a place, and how many answers
/// were written to it.
fn end_of(door: &GateDoor) -> (&'static str, usize, usize) {
    match door.served() {
        Some((conn, report)) => (
            name_of(report.end),
            report.places.as_slice().len(),
            answers_in(conn.taken()),
        ),
        None => ("not served", 0, 0),
    }
}

fn name_of(end: End) -> &'static str {
    match end {
        End::Closed => "closed",
        End::ReadFault => "read fault",
        End::WriteFault => "write fault",
        End::NoMemory => "out of memory",
    }
}

/// How often the status line of an answer occurs in what was written.
fn answers_in(written: &[u8]) -> usize {
    let line = b"HTTP/1.1 200 OK\r\n".as_slice();
    written.windows(line.len()).filter(|at| *at == line).count()
}
