ghost use Rattle.std.specs.Prelude.{◌≡◌, ◌+◌, ◌⊎◌, length};
ghost use Rattle.catalogue.specs.Histories.{meta};
ghost use Rattle.console.specs.Replies.{IsBoundedReply, reply_text};
ghost use Rattle.console.specs.declared.said.Said.TheVariants as said;
ghost use Rattle.catalogue.specs.Holdings.{history_of};
ghost use Rattle.zone_meaning.specs.ZoneHistories.{ForEachZoneHistory, HasZoneHistory};
ghost use Rattle.run_ends.specs.Feeds.{FeedView};
ghost use Rattle.run_ends.specs.Replies.{last_token};
ghost use Rattle.td_top.specs.Replies.{reply_bytes};
ghost use Rattle.run_ends.specs.Sessions.{AnswersLine};
ghost use Rattle.run_ends.specs.declared.session.Session.{Session as SessionView};

use crate::audience::{tell_news, watch};
use crate::release_feed::ReleaseFeed;
use crate::replies::ConsoleReply;
use catalogue::Catalogue;
use console::{Line, Said};
use installer::{InstallPolicy, Installer};
use run_ends::Session;
use std::sync::Wait;
use td_base::{NoMemory, Token};
use zone_meaning::Zone;

/// Performs a line of the operator, and returns the reply to it.
pub fn answer_line<R: Wait, G: ReleaseFeed>(
    rt: &R,
    session: &mut Session,
    asked: &InstallPolicy<'_>,
    feed: &mut G,
    line: &Line,
) -> ConsoleReply
    ensures answers { AnswersLine (G.seen feed.old asked.now.rules.chosen)
        (G.seen feed.new asked.now.rules.chosen)
        session.old session.new line.now (reply_bytes result) }
    // A status is what an enter for this line found.
    ensures enters { line.now ≡ Line.Status
        → (session.new.desk.enters ≡ session.old.desk.enters + 1)
        ⊎ (reply_bytes result ≡ reply_text said.NoMemory) }
{
    match line {
        Line::Watch(wish) => watch(session, wish),
        Line::News(number) => tell_news(session, *number),
        Line::Status => show(session),
        Line::Quit => bye(),
        _ => match feed.grow(rt, session, asked, line) {
            Some(reply) => reply,
            None => ConsoleReply::brief(&Said::Unknown),
        },
    }
}

/// The token of the release published last.
pub fn newest(installer: &Installer) -> Token
    ensures { result ≡ last_token (history_of installer.now.list) }
{
    let last = installer.last();
    last.token(last.count())
}

/// The reply to a line that ends the session.
fn bye() -> ConsoleReply
    ensures { (feed : FeedView) (session : SessionView) (asked : Line) → asked ≡ Line.Quit
        → AnswersLine feed feed session session asked (reply_bytes result) }
{
    ConsoleReply::brief(&Said::Bye)
}

/// Shows the release that the desk holds after one enter.
fn show(session: &mut Session) -> ConsoleReply
    ensures answers { (feed : FeedView) (asked : Line) → asked ≡ Line.Status
        → AnswersLine feed feed session.old session.new asked (reply_bytes result) }
    // What is shown is what was found by an enter of this call.
    ensures enters { (session.new.desk.enters ≡ session.old.desk.enters + 1)
        ⊎ (reply_bytes result ≡ reply_text said.NoMemory) }
{
    match session.desk.enter() {
        Ok(()) => ConsoleReply::brief(&serving(session.desk.value())),
        Err(NoMemory) => ConsoleReply::brief(&Said::NoMemory),
    }
}

/// The status of a served catalogue: the token of its last place, and how many zones its last
/// release has.
fn serving(catalogue: &Catalogue<Zone>) -> Said
    requires { HasZoneHistory catalogue.now }
    ensures said { ForEachZoneHistory catalogue.now
        (λ H. result ≡ said.Serving (last_token H) (length (meta H))) }
    ensures brief { IsBoundedReply result }
{
    Said::Serving(catalogue.token(catalogue.count()), catalogue.len() as u32)
}
