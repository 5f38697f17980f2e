ghost use Rattle.std.specs.Prelude.{◌≡◌, ◌≤◌, [], IfOk};
ghost use Rattle.catalogue.specs.Holdings.{history_of};
ghost use Rattle.sync_core.specs.Mirrors.{MirrorState};
ghost use Rattle.sync_core.specs.Published.{HasFiles, manifest_of};
ghost use Rattle.run_ends.specs.Following.{StatesLast};
ghost use Rattle.td_top.specs.FollowingSteps.{OpensStated, PublishesStated, follow_of};
ghost use Rattle.run_ends.specs.Feeds.{Grows};
ghost use Rattle.run_ends.specs.Opening.{HasDesks, published_in};
ghost use Rattle.td_top.specs.Replies.{reply_bytes};
ghost use Rattle.run_ends.specs.Sessions.{AnswersLine};

use crate::operator::newest;
use crate::release_feed::ReleaseFeed;
use crate::replies::ConsoleReply;
use console::{Line, Said};
use installer::{InstallFault, InstallPolicy, Installer};
use mirror::sync;
use release_manifest::Manifest;
use run_ends::{OpenedServer, Session};
use std::alloc::Global;
use std::sync::Wait;
use sync_core::{Mirror, MirrorFiles};
use td_base::{NoMemory, Upstream};

/// A mirror, the server that it follows, and the host name for its requests.
pub struct Follow<'h, U: Upstream> {
    pub mirror: Mirror,
    pub host: &'h [u8],
    pub upstream: U,
}

/// A mirror's history grows by what it receives from the other server. No rule is applied to it.
impl<'h, U: Upstream> ReleaseFeed for Follow<'h, U> {
    ghost seen = { λ follow _. follow_of U.seen follow };

    fn grow<R: Wait>(
        &mut self,
        rt: &R,
        session: &mut Session,
        asked: &InstallPolicy<'_>,
        line: &Line,
    ) -> Option<ConsoleReply> {
        match line {
            Line::Sync => Some(sync_once(rt, session, asked, self)),
            _ => None,
        }
    }
}

/// Syncs, and publishes what the mirror holds, if that is another release than the last.
fn sync_once<R: Wait, U: Upstream>(
    rt: &R,
    session: &mut Session,
    asked: &InstallPolicy<'_>,
    follow: &mut Follow<'_, U>,
) -> ConsoleReply
    ensures { (line : Line) → Grows (follow_of U.seen follow.old) line → AnswersLine
        (follow_of U.seen follow.old) (follow_of U.seen follow.new) session.old session.new
        line (reply_bytes result) }
{
    let alloc = session.alloc;
    match sync(alloc, &mut follow.mirror, follow.host, &mut follow.upstream) {
        Ok(()) => publish(rt, session, asked, &follow.mirror),
        Err(fault) => ConsoleReply::sync_refusal(alloc, &fault),
    }
}

/// Publishes what the mirror holds, if that is another release than the last, and returns the reply
/// about it.
fn publish<R: Wait>(
    rt: &R,
    session: &mut Session,
    asked: &InstallPolicy<'_>,
    mirror: &Mirror,
) -> ConsoleReply
    requires { mirror.now.pending ≡ [] }
    ensures { PublishesStated mirror.now session.old session.new (reply_bytes result) }
{
    match mirror.manifest(session.alloc) {
        Ok((manifest, mut store)) => publish_stated(rt, session, asked, &manifest, &mut store),
        Err(NoMemory) => ConsoleReply::brief(&Said::NoMemory),
    }
}

/// Like `publish`, for a manifest and its files.
fn publish_stated<R: Wait>(
    rt: &R,
    session: &mut Session,
    asked: &InstallPolicy<'_>,
    manifest: &Manifest,
    store: &mut MirrorFiles<'_>,
) -> ConsoleReply
    ensures { (s : MirrorState) → manifest.now ≡ manifest_of s → HasFiles store.old s.files
        → PublishesStated s session.old session.new (reply_bytes result) }
{
    let alloc = session.alloc;
    match session.installer.last_matches(alloc, manifest, store) {
        Ok(true) => ConsoleReply::brief(&Said::Unchanged(newest(&session.installer))),
        Ok(false) => install(rt, session, asked, manifest, store),
        Err(fault) => ConsoleReply::refusal(alloc, &fault),
    }
}

/// Publishes the release of a manifest and its files, which is not the last.
fn install<R: Wait>(
    rt: &R,
    session: &mut Session,
    asked: &InstallPolicy<'_>,
    manifest: &Manifest,
    store: &mut MirrorFiles<'_>,
) -> ConsoleReply
    ensures { (s : MirrorState) → manifest.now ≡ manifest_of s → HasFiles store.old s.files
        → (StatesLast (history_of session.old.installer.list) s → ⊥)
        → PublishesStated s session.old session.new (reply_bytes result) }
{
    match session.install_stated(rt, manifest, store, asked) {
        Ok(()) => ConsoleReply::brief(&Said::Installed(newest(&session.installer))),
        Err(fault) => ConsoleReply::refusal(session.alloc, &fault),
    }
}

/// Publishes what the mirror holds as a first release, for a session and the desks of this many
/// workers.
pub fn open_stated<R: Wait>(
    rt: &R,
    alloc: Global,
    mirror: &Mirror,
    workers: u32,
) -> Result<OpenedServer, InstallFault>
    requires settled { mirror.now.pending ≡ [] }
    requires workers { workers ≤ 64 }
    ensures stated { OpensStated mirror.now (published_in result) }
    ensures desks { IfOk result (HasDesks workers) }
{
    let (manifest, mut store) = mirror.manifest(alloc)?;
    let (installer, mut desks) = Installer::open_manifest(
        rt,
        alloc,
        &manifest,
        &mut store,
        workers + 1,
    )?;
    let desk = desks.pop().unwrap();
    Ok(OpenedServer {
        session: Session {
            alloc,
            installer,
            desk,
        },
        desks,
    })
}
