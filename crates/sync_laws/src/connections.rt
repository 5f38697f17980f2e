//! Laws of the connection of a primary that a mirror asks on, each the contract of a function that
//! does nothing.
ghost use Rattle.std.specs.Prelude.{◌≡◌, ◌⊎◌, ◌++◌, ℕ, List, length, take};
ghost use Rattle.td_base.specs.declared.report.Ask.{Ask};
ghost use Rattle.td_base.specs.declared.report.End.{End};
ghost use Rattle.td_base.specs.declared.report.Role.{Role};
ghost use Rattle.td_base.specs.declared.report.Role.TheVariants.{Primary};
ghost use Rattle.td_base.specs.declared.upstream.Exchange.{Exchange};
ghost use Rattle.catalogue.specs.Histories.{IsHistory};
ghost use Rattle.catalogue.specs.Releases.{ReleaseData};
ghost use Rattle.http_request.specs.declared.head.Head.{Head};
ghost use Rattle.negotiate.specs.declared.choosing.Format.{Format};
ghost use Rattle.negotiate.specs.declared.choosing.Format.TheVariants.{Calendar, Tzif};
ghost use Rattle.zone_meaning.specs.Sound.{IsSound};
ghost use Rattle.actions.specs.Action.{action};
ghost use Rattle.connection.specs.FaultCounts.{FaultCounts};
ghost use Rattle.connection.specs.Served.{Served, Transcript};
ghost use Rattle.connection.specs.Serving.{answer_at};
ghost use Rattle.mirror.specs.declared.limits.TheConstants.{MOST_ANSWER};
ghost use Rattle.sync_world.specs.Hearing.{IsDataHeadOf};
ghost use Rattle.mirror_world.specs.Answers.{IsDataRequestFor};
ghost use Rattle.sync_laws.specs.WorldAnswers.{IsAnswerAtPlace, IsNotTaken};

use crate::cuts::{only_whole_replies_are_taken, refusals_are_not_taken};
use crate::replies::replies_fit;
use http_request::{gives, one_step, prefixes};

/// A mirror that serves other mirrors answers them as a primary with its history does. Fails if the
/// role of a server changes what it answers to a mirror.
pub fn mirrors_answer_as_primaries()
    ensures { (f : Format) (G : List ReleaseData) (role : Role) (a : Ask) (head : Head)
        → IsDataHeadOf f a head → action G role head ≡ action G Primary head }
{}

/// Takes a connection of a server, of any role, that has finished. Its reads gave the request of a
/// mirror, or a beginning of it, and the mirror took what was written, up to its limit. Then that
/// is the answer over some of the releases of the server, as a world has it, or the mirror does not
/// take it. Fails if a connection can write what a mirror misunderstands.
pub fn connections_answer_mirrors()
    ensures files { (H : List ReleaseData) (role : Role) (a : Ask) (x : Exchange) (head : Head)
        (s : Transcript) (more : List ℕ) (before now : FaultCounts) (end : End)
        → IsHistory IsSound H → IsDataRequestFor Tzif a x.request head → x.most ≡ MOST_ANSWER
        → Served (answer_at H role) (length H) s before now end → x.request ≡ s.read ++ more
        → x.answer ≡ take x.most s.written
        → IsAnswerAtPlace Tzif H a x ⊎ IsNotTaken a x.answer }
    ensures calendars { (H : List ReleaseData) (role : Role) (a : Ask) (x : Exchange) (head : Head)
        (s : Transcript) (more : List ℕ) (before now : FaultCounts) (end : End)
        → IsHistory IsSound H → IsDataRequestFor Calendar a x.request head → x.most ≡ MOST_ANSWER
        → Served (answer_at H role) (length H) s before now end → x.request ≡ s.read ++ more
        → x.answer ≡ take x.most s.written
        → IsAnswerAtPlace Calendar H a x ⊎ IsNotTaken a x.answer }
{
    replies_fit();
    only_whole_replies_are_taken();
    refusals_are_not_taken();
    one_step();
    gives();
    prefixes();
}
