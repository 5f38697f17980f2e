ghost use Rattle.std.specs.Prelude.{◌≡◌, List, IfSome, None};
ghost use Rattle.admission.specs.declared.rules.Chosen.{Chosen};
ghost use Rattle.run_ends.specs.Feeds.{FeedView, Grows};
ghost use Rattle.td_top.specs.Replies.{reply_bytes};
ghost use Rattle.run_ends.specs.Sessions.{AnswersLine};

use crate::replies::ConsoleReply;
use console::Line;
use installer::InstallPolicy;
use run_ends::Session;
use std::sync::Wait;

/// The source of new releases while a history is served: the folders of a store, or a mirror.
pub trait ReleaseFeed {
    /// The view of the source, given the rules that apply to releases.
    ghost seen: { Self → List Chosen → FeedView };

    /// Performs a line that requests feed, and returns the reply to it. `None` for any other
    /// line, which changes nothing.
    fn grow<R: Wait>(
        &mut self,
        rt: &R,
        session: &mut Session,
        asked: &InstallPolicy<'_>,
        line: &Line,
    ) -> Option<ConsoleReply>
        ensures done { IfSome result (λ reply. AnswersLine (seen self.old asked.now.rules.chosen)
            (seen self.new asked.now.rules.chosen) session.old session.new line.now
            (reply_bytes reply)) }
        ensures other { result ≡ None → Grows (seen self.old asked.now.rules.chosen) line.now → ⊥ }
        ensures left { result ≡ None
            → (seen self.new asked.now.rules.chosen ≡ seen self.old asked.now.rules.chosen)
            × (session.new ≡ session.old) };
}
