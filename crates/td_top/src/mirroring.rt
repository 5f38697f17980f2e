ghost use Rattle.std.specs.Prelude.{◌≡◌, ℕ, ◌≤◌, List, [], map, Some, IfOk};
ghost use Rattle.std.specs.Option.{option_map};
ghost use Rattle.td_base.specs.Names.{IsPlain};
ghost use Rattle.td_base.specs.Views.{StoreView};
ghost use Rattle.run_ends.specs.Commands.{mirror};
ghost use Rattle.td_top.specs.FollowingSteps.{follow_of};
ghost use Rattle.td_top.specs.MirroringSteps.{FollowsOn, ServesStated};
ghost use Rattle.run_ends.specs.Running.{Completes, RunsAs};
ghost use Rattle.run_ends.specs.Site.{site_names, site_of, world_of};
ghost use Rattle.run_ends.specs.Tells.{RefusesSync};

use crate::mirror_feed::{Follow, open_stated};
use crate::server::{Serving, serve_opened};
use admission::Rules;
use installer::InstallPolicy;
use mirror::{SyncFault, sync};
use mirror_world::{
    contents_are_held, histories_go_on, mirrors_hold_in_turn, releases_are_held,
    settled_mirrors_pass, syncs_settle,
};
use run_ends::{Ending, KeptTests, RunIo, Served, Status, refuse_install, refuse_shown};
use std::alloc::Global;
use std::sync::Wait;
use std::thread::Threads;
use sync_core::Mirror;
use td_base::{Bytes, Door, Made, Network, NoMemory, Role, Sink, Source, Spawner, Upstream};

/// Follow the server at an address, and serve another address with a number of workers.
#[derive(Clone, Copy)]
pub struct MirrorWords<'a> {
    pub address: &'a [u8],
    pub workers: u32,
    pub upstream: &'a [u8],
}

/// Syncs with the server at an address, publishes what the mirror holds, and serves the doors of
/// another address, each with a separate worker. Meanwhile an operator uses the console over the
/// input and output, and may request further syncs. The `Host` of each request is the server's
/// address as given.
pub fn mirror_server<R, C, K, N, W>(
    rt: &R,
    alloc: Global,
    words: &MirrorWords<'_>,
    tests: &KeptTests<'_>,
    site: &mut RunIo<'_, C, K, N, W>,
) -> Ending<N::Door, N::Up>
where
    R: Threads + Wait + Copy + Send + 'static,
    C: Source,
    K: Sink,
    N: Network,
    N::Door: Send + Drop + 'static,
    <N::Door as Door>::Conn: Send + 'static,
    W: Spawner,
    requires workers { words.now.workers ≤ 64 }
    requires plain { IsPlain words.now.upstream.now }
    ensures kept { site_names site.new ≡ site_names site.old }
    // The store, whatever it is, is left alone.
    ensures ends { (store : StoreView) → RunsAs
        (Some (mirror words.now.address.now words.now.workers words.now.upstream.now))
        (world_of store C.seen K.seen N.seen W.faults site.old)
        (world_of store C.seen K.seen N.seen W.faults site.new)
        (map N.Door.seen result.doors.items) (option_map N.Up.seen result.up) result.status }
{
    mirrors_hold_in_turn();
    histories_go_on();
    releases_are_held();
    contents_are_held();
    match site.net.upstream(alloc, words.upstream) {
        Made::Given(server) => {
            let mut follow = Follow {
                mirror: Mirror::empty(alloc),
                host: words.upstream,
                upstream: server,
            };
            let served = follow_on(rt, alloc, words, tests, &mut follow, site);
            let Follow {
                mirror: _,
                host: _,
                upstream: server,
            } = follow;
            served.after(Some(server))
        }
        Made::Failed => Ending::closed(alloc, Status::NoNetwork),
        Made::NoMemory => Ending::closed(alloc, Status::NoMemory),
    }
}

/// Syncs for the first time, and serves what the mirror holds.
fn follow_on<R, U, C, K, N, W>(
    rt: &R,
    alloc: Global,
    words: &MirrorWords<'_>,
    tests: &KeptTests<'_>,
    follow: &mut Follow<'_, U>,
    site: &mut RunIo<'_, C, K, N, W>,
) -> Served<N::Door>
where
    R: Threads + Wait + Copy + Send + 'static,
    U: Upstream,
    C: Source,
    K: Sink,
    N: Network,
    N::Door: Send + Drop + 'static,
    <N::Door as Door>::Conn: Send + 'static,
    W: Spawner,
    requires workers { words.now.workers ≤ 64 }
    requires plain { IsPlain follow.old.host.now }
    ensures kept { site_names site.new ≡ site_names site.old }
    ensures ends { FollowsOn follow.old.host.now words.now.address.now words.now.workers
        follow.old.mirror
        (U.seen follow.old.upstream)
        (site_of (follow_of U.seen follow.old) C.seen K.seen N.seen W.faults site.old)
        (site_of (follow_of U.seen follow.new) C.seen K.seen N.seen W.faults site.new)
        (map N.Door.seen result.doors.items) result.status }
{
    match sync(alloc, &mut follow.mirror, follow.host, &mut follow.upstream) {
        Ok(()) => serve_stated(rt, alloc, words, tests, follow, site),
        Err(fault) => Served::closed(alloc, refuse_sync(alloc, &fault, site.output)),
    }
}

/// Serves what a settled mirror holds.
fn serve_stated<R, U, C, K, N, W>(
    rt: &R,
    alloc: Global,
    words: &MirrorWords<'_>,
    tests: &KeptTests<'_>,
    follow: &mut Follow<'_, U>,
    site: &mut RunIo<'_, C, K, N, W>,
) -> Served<N::Door>
where
    R: Threads + Wait + Copy + Send + 'static,
    U: Upstream,
    C: Source,
    K: Sink,
    N: Network,
    N::Door: Send + Drop + 'static,
    <N::Door as Door>::Conn: Send + 'static,
    W: Spawner,
    requires workers { words.now.workers ≤ 64 }
    requires plain { IsPlain follow.old.host.now }
    requires settled { follow.old.mirror.pending ≡ [] }
    ensures kept { site_names site.new ≡ site_names site.old }
    ensures ends { ServesStated follow.old.host.now words.now.address.now words.now.workers
        follow.old.mirror
        (site_of (follow_of U.seen follow.old) C.seen K.seen N.seen W.faults site.old)
        (site_of (follow_of U.seen follow.new) C.seen K.seen N.seen W.faults site.new)
        (map N.Door.seen result.doors.items) result.status }
{
    let Ok(role) = secondary(alloc, follow.host) else {
        return Served::closed(alloc, Status::NoMemory);
    };
    match open_stated(rt, alloc, &follow.mirror, words.workers) {
        Ok(opened) => {
            let serving = Serving {
                role: &role,
                address: words.address,
                workers: words.workers,
            };
            let asked = InstallPolicy::new(Rules::none(alloc), tests.wants);
            serve_opened(rt, &serving, opened, &asked, follow, site)
        }
        Err(fault) => Served::closed(alloc, refuse_install(alloc, &fault, site.output)),
    }
}

/// A server that follows the one at this address.
fn secondary(alloc: Global, address: &[u8]) -> Result<Role, NoMemory>
    ensures { IfOk result (λ role. role ≡ Role.Secondary address.now) }
{
    Ok(Role::Secondary(Bytes::from_slice(alloc, address)?))
}

/// Ends a run because the first sync ended with a fault.
fn refuse_sync<K: Sink>(alloc: Global, fault: &SyncFault, output: &mut K) -> Status
    ensures { RefusesSync fault.now (K.seen output.old) (K.seen output.new) result }
{
    match fault {
        SyncFault::NoMemory => Status::NoMemory,
        _ => refuse_shown(alloc, Status::NotSynced, fault, output),
    }
}

/// Law: if nothing failed and the primary's second list is an empty list of changes, `mirror` ends
/// as a server does, or memory runs out.
pub fn mirrors_complete()
    ensures { (address : List ℕ) (workers : ℕ) (upstream : List ℕ)
        → Completes (mirror address workers upstream) }
{
    settled_mirrors_pass();
    syncs_settle();
}
