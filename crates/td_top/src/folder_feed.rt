ghost use Rattle.run_ends.specs.Feeds.{AsksFolder, folders};
ghost use Rattle.td_top.specs.Replies.{reply_bytes};
ghost use Rattle.run_ends.specs.Sessions.{AnswersLine};

use crate::operator::newest;
use crate::release_feed::ReleaseFeed;
use crate::replies::ConsoleReply;
use console::{Line, Said};
use installer::InstallPolicy;
use run_ends::Session;
use std::sync::Wait;
use td_base::{Bytes, Store};

/// A server's history grows by the folders of its store.
impl<S: Store> ReleaseFeed for S {
    ghost seen = { λ store rules. folders rules (S.seen store) };

    fn grow<R: Wait>(
        &mut self,
        rt: &R,
        session: &mut Session,
        asked: &InstallPolicy<'_>,
        line: &Line,
    ) -> Option<ConsoleReply> {
        match line {
            Line::Install(dir) => Some(install(rt, session, asked, self, dir)),
            _ => None,
        }
    }
}

/// Installs the release of a folder, if no rule refuses it.
fn install<R: Wait, S: Store>(
    rt: &R,
    session: &mut Session,
    asked: &InstallPolicy<'_>,
    store: &mut S,
    dir: &Bytes,
) -> ConsoleReply
    ensures { (line : Line) → AsksFolder line dir.now
        → AnswersLine (folders asked.now.rules.chosen (S.seen store.old))
        (folders asked.now.rules.chosen (S.seen store.new)) session.old session.new
        line (reply_bytes result) }
{
    match session.install(rt, dir.as_slice(), store, asked) {
        Ok(()) => ConsoleReply::brief(&Said::Installed(newest(&session.installer))),
        Err(fault) => ConsoleReply::refusal(session.alloc, &fault),
    }
}
