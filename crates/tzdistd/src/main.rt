//! The program `tzdistd`: runs the command of its arguments over the files of the system and the
//! standard streams. It ends with the command's exit status. When that status reports a failure of
//! the outside, one line on standard error names the file or stream that failed.
//!
//! It calls `td_top::run` with the files, sockets and threads of `devices`.
#![tactic(auto)]

ghost use Rattle.std.specs.Prelude.{◌≡◌};
ghost use Rattle.admission.specs.Rules.{allows};
ghost use Rattle.subscribers.specs.Wishes.{takes_by};
ghost use Rattle.std.specs.Process.{exit_status};

use admission::{Changed, Delta, Kept, RuleKind, Test, changes_at_most, changes_no_past};
use devices::{
    Blocking, RealDoor, RealNetwork, RealSink, RealSource, RealSpawner, RealStore, RealUpstream,
    drain,
};
use process_edge::{Failures, OUT_OF_MEMORY, collect, complain};
use std::io::ErrorKind;
use std::process::ExitCode;
use subscribers::{Want, WantTest, Wish, WishKind, is_any, is_past, is_under};

/// For how many milliseconds pending output to peers may still be sent before the program ends.
const OWED_MILLIS: u64 = 2_000;

#[tactic(auto, using(admission::proofs::lemmas::Keeping::both_kept, subscribers::proofs::lemmas::Wanting::three_wanted))]
fn main(rt: HostRuntime) -> ExitCode {
    let at_most = |delta: &Delta, most: i64| -> bool
        ensures { result ≡ allows RuleKind.MaxChanged most delta.now }
    { changes_at_most(delta, most) };
    let no_past = |delta: &Delta, moment: i64| -> bool
        ensures { result ≡ allows RuleKind.NoPastChange moment delta.now }
    { changes_no_past(delta, moment) };
    let Ok(at_most) = Box::new(rt.alloc(), at_most) else {
        return out_of_memory(&rt);
    };
    let Ok(no_past) = Box::new(rt.alloc(), no_past) else {
        return out_of_memory(&rt);
    };
    let (at_most, no_past): (Test, Test) = (at_most, no_past);
    let kept = [
        Kept::new(RuleKind::MaxChanged, at_most),
        Kept::new(RuleKind::NoPastChange, no_past),
    ];
    let any = |change: &Changed, wish: &Wish| -> bool
        ensures { result ≡ takes_by WishKind.Any change.now wish.now }
    { is_any(change, wish) };
    let under = |change: &Changed, wish: &Wish| -> bool
        ensures { result ≡ takes_by WishKind.Under change.now wish.now }
    { is_under(change, wish) };
    let past = |change: &Changed, wish: &Wish| -> bool
        ensures { result ≡ takes_by WishKind.Past change.now wish.now }
    { is_past(change, wish) };
    let Ok(any) = Box::new(rt.alloc(), any) else {
        return out_of_memory(&rt);
    };
    let Ok(under) = Box::new(rt.alloc(), under) else {
        return out_of_memory(&rt);
    };
    let Ok(past) = Box::new(rt.alloc(), past) else {
        return out_of_memory(&rt);
    };
    let (any, under, past): (WantTest, WantTest, WantTest) = (any, under, past);
    let wants = [
        Want::new(WishKind::Any, any),
        Want::new(WishKind::Under, under),
        Want::new(WishKind::Past, past),
    ];
    let Ok(words) = collect(rt.alloc(), &rt) else {
        return out_of_memory(&rt);
    };
    let mut store = RealStore::new(&rt);
    let mut input = RealSource::new(Blocking::new(rt.stdin(), libc::STDIN_FILENO));
    let mut output = RealSink::new(Blocking::new(rt.stdout(), libc::STDOUT_FILENO));
    let mut net = RealNetwork::new(&rt);
    let mut spawner = RealSpawner::new();
    let mut outcome = td_top::run(
        &rt,
        rt.alloc(),
        words.as_slice(),
        &kept,
        &wants,
        &mut store,
        &mut input,
        &mut output,
        &mut net,
        &mut spawner,
    );
    drain(&mut outcome.doors, OWED_MILLIS);
    let failures = Failures {
        store: store.failure(),
        input: input.failure(),
        output: output.failure(),
        network: net.failure(),
        door: door_failure(&outcome.doors),
        upstream: upstream_failure(&outcome.up),
    };
    complain(&rt, outcome.status, failures);
    exit_code(outcome.status)
}

/// Reports that memory ran out.
fn out_of_memory(rt: &HostRuntime) -> ExitCode {
    complain(rt, OUT_OF_MEMORY, Failures::NONE);
    exit_code(OUT_OF_MEMORY)
}

/// The last failure of the door that failed most often, if one failed. A worn door is always that
/// one.
fn door_failure(doors: &[RealDoor<HostRuntime>]) -> Option<ErrorKind> {
    let most = doors.iter().max_by_key(|door| door.faults())?;
    most.failure()
}

/// Why the last failed exchange with the upstream failed, if one did.
fn upstream_failure(up: &Option<RealUpstream<'_, HostRuntime>>) -> Option<ErrorKind> {
    match up {
        Some(upstream) => upstream.failure(),
        None => None,
    }
}

/// The exit code of a status.
fn exit_code(status: u8) -> ExitCode
    ensures { exit_status result ≡ status }
{
    ExitCode::from(status)
}
