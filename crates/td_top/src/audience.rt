//! Subscribers to the zones that later installs change.
ghost use Rattle.std.specs.Prelude.{◌≡◌, IfOk};
ghost use Rattle.std.specs.Option.{option_map};
ghost use Rattle.console.specs.Replies.{news_text};
ghost use Rattle.subscribers.specs.News.{numbered_from};
ghost use Rattle.run_ends.specs.Feeds.{FeedView};
ghost use Rattle.td_top.specs.Replies.{reply_bytes};
ghost use Rattle.run_ends.specs.Sessions.{AnswersLine};

use crate::replies::ConsoleReply;
use console::{Line, Said, news_reply};
use installer::Installer;
use run_ends::Session;
use std::alloc::Global;
use subscribers::{SubscribeFault, Wish};
use td_base::{Bytes, NoMemory};

/// Adds a subscriber with its own copy of a wish, and returns the reply. When the subscriber was
/// added, the reply allocates no memory.
pub fn watch(session: &mut Session, wish: &Wish) -> ConsoleReply
    ensures { (feed : FeedView) (asked : Line) → asked ≡ Line.Watch wish.now
        → AnswersLine feed feed session.old session.new asked (reply_bytes result) }
{
    let Ok(own) = copy_of(session.alloc, wish) else {
        return ConsoleReply::brief(&Said::NoMemory);
    };
    match session.installer.subscribe(own) {
        Ok(number) => ConsoleReply::brief(&Said::Watching(number)),
        Err(SubscribeFault::NoMemory) => ConsoleReply::brief(&Said::NoMemory),
        Err(SubscribeFault::WatchFull) => {
            ConsoleReply::shown_refusal(session.alloc, &SubscribeFault::WatchFull)
        }
    }
}

/// A copy of a wish.
fn copy_of(alloc: Global, wish: &Wish) -> Result<Wish, NoMemory>
    ensures { IfOk result (λ own. own ≡ wish.now) }
{
    Ok(Wish {
        kind: wish.kind,
        under: wish.under.clone_in(alloc)?,
        before: wish.before,
    })
}

/// Returns the reply with the notices that the subscriber of a number holds, and clears them. When
/// there is no memory for the reply, it keeps all of them.
pub fn tell_news(session: &mut Session, number: u32) -> ConsoleReply
    ensures { (feed : FeedView) (asked : Line) → asked ≡ Line.News number
        → AnswersLine feed feed session.old session.new asked (reply_bytes result) }
{
    match held_text(session.alloc, &session.installer, number) {
        Ok(Some(text)) => {
            session.installer.clear(number);
            ConsoleReply::Long(text)
        }
        Ok(None) => ConsoleReply::nobody(session.alloc),
        Err(NoMemory) => ConsoleReply::brief(&Said::NoMemory),
    }
}

/// The reply with what the subscriber of a number holds. None exactly when no such subscriber
/// exists.
fn held_text(alloc: Global, installer: &Installer, number: u32) -> Result<Option<Bytes>, NoMemory>
    ensures { IfOk result (λ text. text
        ≡ option_map (λ s. news_text s.held) (numbered_from installer.now.subscribers number)) }
{
    match installer.held(number) {
        None => Ok(None),
        Some(held) => {
            let mut text = Bytes::new(alloc);
            news_reply(&mut text, held)?;
            Ok(Some(text))
        }
    }
}
