ghost use Rattle.std.specs.Prelude.{◌≡◌, ℕ, ℤ, List, map, None};
ghost use Rattle.std.specs.Option.{option_map};
ghost use Rattle.td_base.specs.Views.{SourceView, StoreView};
ghost use Rattle.admission.specs.Rules.{KeepsAll};
ghost use Rattle.admission.specs.declared.rules.Chosen.{Chosen};
ghost use Rattle.subscribers.specs.Wishes.{WantsAll};
ghost use Rattle.run_ends.specs.Commands.{answer, at, calmirror, check, load, mirror};
ghost use Rattle.td_top.specs.Command.{command_of};
ghost use Rattle.run_ends.specs.Commands.{serve};
ghost use Rattle.run_ends.specs.Outside.{LaterWorld, outside, world};
ghost use Rattle.run_ends.specs.Running.{Completes, HasRun, RunEnds, RunsAlone, number_of};
ghost use Rattle.run_ends.specs.Site.{site_names, world_of};
ghost use Rattle.run_ends.specs.declared.status.Status.{Status};

pub(crate) mod serving;

use crate::command::{Command, read_words};
use crate::mirroring::{mirror_server, mirrors_complete};
use crate::running::serving::{serve_doors, serves_complete};
use admission::Kept;
use plain_commands::{
    AnswerPlan, LoadPlan, answer, answers_complete, calendars_complete, check_folders,
    checks_complete, load, load_complete, mirror_calendars, state_at, state_complete,
};
use run_ends::{Ending, KeptTests, Outcome, RunIo, Status, print};
use std::alloc::Global;
use std::sync::Wait;
use std::thread::Threads;
use subscribers::Want;
use td_base::{Bytes, Door, Network, Sink, Source, Spawner, Store};

/// The line that is printed for words that are no command.
const USAGE: &[u8] = b"usage: tzdistd answer|serve|mirror|check|at|load|calmirror\n";

/// Runs a command line over a store of files, an input and an output and, to serve connections, a
/// network and a spawner of workers. Returns the exit status of the process, the doors that were
/// served, and the server that was followed.
///
/// `answer DIR..` installs the releases of folders, in their order. It serves the input and output,
/// as one connection, over the last release.
///
/// `serve ADDRESS WORKERS RULES DIR..` serves the connections of an address with a number of
/// workers, while an operator uses the console over the input and output. The rules are
/// `--max-changed N` and `--no-past-change MOMENT`. They apply in their order to each release but
/// the first of the history. A release is refused by the first rule that does not allow its
/// changes.
///
/// `mirror ADDRESS WORKERS UPSTREAM` serves likewise what another server has, without rules. It
/// syncs with that server first, and whenever the operator requests it.
///
/// `check DIR..` checks folders as one history, with a line for each. `at FILE MOMENT` prints the
/// state of a zone file at a moment. `load NUMBER` makes that many releases, serves requests after
/// each in memory, and prints the counts. `calmirror UPSTREAM START END` fetches the calendars of
/// another server, and prints the observances of each in a range.
///
/// The operator of `serve` and `mirror` may subscribe, by wishes, to the zones that later releases
/// change, and receives the notices on `news`.
///
/// The caller keeps the tests of the rules and of the wishes, at least one of each kind.
#[tactic(auto, unfolding(run_ends::specs::Running::HasRun))]
pub fn run<R, S, C, K, N, W>(
    rt: &R,
    alloc: Global,
    words: &[Bytes],
    kept: &[Kept],
    wants: &[Want],
    store: &mut S,
    input: &mut C,
    output: &mut K,
    net: &mut N,
    spawner: &mut W,
) -> Outcome<N::Door, N::Up>
where
    R: Threads + Wait + Copy + Send + 'static,
    S: Store,
    C: Source,
    K: Sink,
    N: Network,
    N::Door: Send + Drop + 'static,
    <N::Door as Door>::Conn: Send + 'static,
    W: Spawner,
    requires rules { KeepsAll (map (λ k. k.kind) kept.now) }
    requires wants { WantsAll (map (λ w. w.kind) wants.now) }
    // The status stands for one of the ends, and each is tied to what the words call for and to
    // what became of all that is outside: no file changed, the input was only read, the output only
    // written, and no count of faults fell. Memory may run out at any time.
    ensures ends { let before = world
        (outside (S.seen store.old) (C.seen input.old) (K.seen output.old))
        (N.seen net.old) (W.faults spawner.old) in
        let after = world
        (outside (S.seen store.new) (C.seen input.new) (K.seen output.new))
        (N.seen net.new) (W.faults spawner.new) in
        (status : Status) × (result.status ≡ number_of status)
        × RunEnds (command_of words.now) before after
        (map N.Door.seen result.doors.items) (option_map N.Up.seen result.up) status
        × LaterWorld before after }
{
    let mut site = RunIo::new(input, output, net, spawner);
    let tests = KeptTests { kept, wants };
    do_words(rt, alloc, words, &tests, store, &mut site).outcome()
}

/// Performs the command.
fn do_words<R, S, C, K, N, W>(
    rt: &R,
    alloc: Global,
    words: &[Bytes],
    tests: &KeptTests<'_>,
    store: &mut S,
    site: &mut RunIo<'_, C, K, N, W>,
) -> Ending<N::Door, N::Up>
where
    R: Threads + Wait + Copy + Send + 'static,
    S: Store,
    C: Source,
    K: Sink,
    N: Network,
    N::Door: Send + Drop + 'static,
    <N::Door as Door>::Conn: Send + 'static,
    W: Spawner,
    ensures kept { site_names site.new ≡ site_names site.old }
    ensures ends { HasRun (command_of words.now)
        (world_of (S.seen store.old) C.seen K.seen N.seen W.faults site.old)
        (world_of (S.seen store.new) C.seen K.seen N.seen W.faults site.new)
        (map N.Door.seen result.doors.items) (option_map N.Up.seen result.up) result.status }
{
    match read_words(words) {
        Some(Command::Answer(folders)) => {
            let plan = AnswerPlan { folders, tests };
            let status = answer(rt, alloc, &plan, store, site.input, site.output);
            Ending::closed(alloc, status)
        }
        Some(Command::Check(folders)) => {
            Ending::closed(alloc, check_folders(alloc, folders, store, site.output))
        }
        Some(Command::At { file, moment }) => {
            Ending::closed(alloc, state_at(alloc, file, moment, store, site.output))
        }
        Some(Command::Load(number)) => {
            let plan = LoadPlan { number, tests };
            Ending::closed(alloc, load(rt, alloc, &plan, site.output))
        }
        Some(Command::Serve(words)) => serve_doors(rt, alloc, &words, tests, store, site),
        Some(Command::Mirror(words)) => mirror_server(rt, alloc, &words, tests, site),
        Some(Command::MirrorCalendars(plan)) => {
            mirror_calendars(alloc, &plan, site.net, site.output)
        }
        None => Ending::closed(alloc, usage(site.output)),
    }
}

/// Ends a run whose arguments are not a command.
#[tactic(auto, unfolding(run_ends::specs::Commands::usage_line))]
fn usage<K: Sink>(output: &mut K) -> Status
    // The store and the input, whatever they are, are left alone.
    ensures { (store : StoreView) (input : SourceView) → RunsAlone None
        (outside store input (K.seen output.old)) (outside store input (K.seen output.new)) result }
{
    print(output, Status::Usage, USAGE)
}

/// Law: a run whose arguments are a command completes it, or memory runs out. This needs that no
/// count of faults rose, and that what the command needs exists. That is folders that give
/// releases, a file of a zone, or a primary that answers until a list of changes comes back empty.
pub fn runs_complete()
    ensures answer { (dirs : List (List ℕ)) → Completes (answer dirs) }
    ensures serve { (address : List ℕ) (workers : ℕ) (rules : List Chosen) (dirs : List (List ℕ))
        → Completes (serve address workers rules dirs) }
    ensures mirror { (address : List ℕ) (workers : ℕ) (upstream : List ℕ)
        → Completes (mirror address workers upstream) }
    ensures check { (dirs : List (List ℕ)) → Completes (check dirs) }
    ensures at { (path : List ℕ) (m : ℤ) → Completes (at path m) }
    ensures load { (n : ℕ) → Completes (load n) }
    ensures calmirror { (upstream : List ℕ) (start last : ℤ)
        → Completes (calmirror upstream start last) }
{
    answers_complete();
    serves_complete();
    mirrors_complete();
    checks_complete();
    state_complete();
    load_complete();
    calendars_complete();
}
