ghost use Rattle.std.specs.Prelude.{◌≡◌, ℕ, ◌<◌, ◌≤◌, List, length, map, Some};
ghost use Rattle.std.specs.Option.{option_map};
ghost use Rattle.admission.specs.declared.rules.Chosen.{Chosen};
ghost use Rattle.run_ends.specs.Commands.{serve};
ghost use Rattle.run_ends.specs.Running.{Completes, RunsAs};
ghost use Rattle.run_ends.specs.Site.{site_names, world_of};

use crate::command::ServeWords;
use crate::server::{Serving, serve_opened};
use installer::InstallPolicy;
use release_check::one_folder;
use run_ends::{Ending, KeptTests, RunIo, Status, open_all, refuse_install};
use std::alloc::Global;
use std::sync::Wait;
use std::thread::Threads;
use td_base::{Door, Network, Role, Sink, Source, Spawner, Store};

/// Installs the releases of folders under rules, and serves such doors. Meanwhile an operator uses
/// the console over the input and output, and may install further releases.
pub fn serve_doors<R, S, C, K, N, W>(
    rt: &R,
    alloc: Global,
    words: &ServeWords<'_>,
    tests: &KeptTests<'_>,
    store: &mut S,
    site: &mut RunIo<'_, C, K, N, W>,
) -> Ending<N::Door, N::Up>
where
    R: Threads + Wait + Copy + Send + 'static,
    S: Store,
    C: Source,
    K: Sink,
    N: Network,
    N::Door: Send + Drop + 'static,
    <N::Door as Door>::Conn: Send + 'static,
    W: Spawner,
    requires folders { 0 < length words.now.folders.now }
    requires workers { words.now.workers ≤ 64 }
    ensures kept { site_names site.new ≡ site_names site.old }
    ensures ends { RunsAs
        (Some (serve words.now.address.now words.now.workers words.now.rules words.now.folders.now))
        (world_of (S.seen store.old) C.seen K.seen N.seen W.faults site.old)
        (world_of (S.seen store.new) C.seen K.seen N.seen W.faults site.new)
        (map N.Door.seen result.doors.items) (option_map N.Up.seen result.up) result.status }
{
    let Ok(rules) = words.rules.rules(alloc, tests.kept) else {
        return Ending::closed(alloc, Status::NoMemory);
    };
    let asked = InstallPolicy::new(rules, tests.wants);
    let serving = Serving {
        role: &Role::Primary,
        address: words.address,
        workers: words.workers,
    };
    match open_all(rt, alloc, words.folders, &asked, store, words.workers) {
        Ok(opened) => serve_opened(rt, &serving, opened, &asked, store, site).after(None),
        Err(fault) => Ending::closed(alloc, refuse_install(alloc, &fault, site.output)),
    }
}

/// Law: `serve` ends at `quit` or at the end of the input, or memory runs out. This holds if
/// nothing failed, its folders give releases and no rule refuses one.
pub fn serves_complete()
    ensures { (address : List ℕ) (workers : ℕ) (rules : List Chosen) (dirs : List (List ℕ))
        → Completes (serve address workers rules dirs) }
{
    one_folder();
}
