//! Laws of the replies to a mirror, each the contract of a function that does nothing.
ghost use Rattle.std.specs.Prelude.{◌≡◌, ◌<◌, ◌≤◌, ◌++◌, ℕ, List, length, Result};
ghost use Rattle.std.specs.List.{AllByRecursion};
ghost use Rattle.td_base.specs.declared.report.Ask.{Ask};
ghost use Rattle.td_base.specs.declared.upstream.Exchange.{Exchange};
ghost use Rattle.catalogue.specs.Histories.{IsHistory};
ghost use Rattle.catalogue.specs.Releases.{ReleaseData};
ghost use Rattle.http_client.specs.CalendarRequests.{calendar_request_text};
ghost use Rattle.http_client.specs.Requests.{request_text};
ghost use Rattle.http_request.specs.declared.head.Head.{Head};
ghost use Rattle.negotiate.specs.declared.choosing.Format.TheVariants.{Calendar, Tzif};
ghost use Rattle.zone_meaning.specs.Sound.{IsSound};
ghost use Rattle.sync_core.specs.Mirrors.{MirrorState, empty_mirror};
ghost use Rattle.mirror.specs.Shares.{SyncEnds};
ghost use Rattle.mirror.specs.Understanding.{Means};
ghost use Rattle.mirror.specs.declared.limits.TheConstants.{MOST_ANSWER};
ghost use Rattle.mirror.specs.declared.sync_fault.SyncFault.{SyncFault};
ghost use Rattle.calendar_mirror.specs.CalendarShares.{CalendarSyncEnds};
ghost use Rattle.calendar_mirror.specs.Judging.{MeansSound};
ghost use Rattle.calendar_mirror.specs.declared.sync_fault.CalendarSyncFault.{CalendarSyncFault};
ghost use Rattle.sync_world.specs.Hearing.{IsDataHeadOf};
ghost use Rattle.sync_world.specs.Worlds.{SyncWorld, WorldStep, world_begun};
ghost use Rattle.mirror_world.specs.Answers.{IsAnsweredOver, reply_over};
ghost use Rattle.mirror_world.specs.Logs.{Logs};
ghost use Rattle.mirror_world.specs.Runs.{IsUnderstood, Share, SyncsInTurn, all_taken};
ghost use Rattle.calendar_world.specs.Endings.{IsCalendarAnsweredOver, IsCalendarUnderstood};
ghost use Rattle.sync_laws.specs.WorldAnswers.{AnswersIn};

use calendar_world::calendars_are_read;
use sync_world::answers_are_heard;

/// Every reply that a primary of a sound history writes to a request of a mirror is shorter than
/// what a mirror takes. Fails if the limit of a response is lower than what a release needs.
pub fn replies_fit()
    ensures files { (G : List ReleaseData) (a : Ask) (head : Head) → IsHistory IsSound G
        → 1 ≤ length G → IsDataHeadOf Tzif a head → length (reply_over G head) < MOST_ANSWER }
    ensures calendars { (G : List ReleaseData) (a : Ask) (head : Head) → IsHistory IsSound G
        → 1 ≤ length G → IsDataHeadOf Calendar a head → length (reply_over G head) < MOST_ANSWER }
{
    answers_are_heard();
    calendars_are_read();
}

/// Takes a world that brings answers to an empty mirror, where these are the answers that its syncs
/// applied. No sync ends with a fault of an answer. This holds if the exchange whose answer was not
/// applied, if one exists, answers what is outstanding. Fails if an answer of a primary can be too
/// long, unreadable or refused.
pub fn answered_syncs_are_understood()
    ensures files { (H : List ReleaseData) (steps : List WorldStep) (w : SyncWorld) (host : List ℕ)
        (shares : List Share) (s t : MirrorState) (taken untaken : List Exchange)
        (result : Result (Unit {0}) SyncFault)
        → IsHistory IsSound H → 1 ≤ length H
        → Logs IsSound IsAnsweredOver Means (world_begun H) steps (all_taken shares ++ taken) w
        → SyncsInTurn (request_text host) Means empty_mirror shares s
        → SyncEnds (request_text host) Means s t taken untaken result
        → AllByRecursion (AnswersIn IsAnsweredOver w) untaken → IsUnderstood result }
    ensures calendars { (H : List ReleaseData) (steps : List WorldStep) (w : SyncWorld)
        (host : List ℕ) (t : MirrorState) (taken untaken : List Exchange)
        (result : Result (Unit {0}) CalendarSyncFault)
        → IsHistory IsSound H → 1 ≤ length H
        → Logs IsSound IsCalendarAnsweredOver MeansSound (world_begun H) steps taken w
        → CalendarSyncEnds (calendar_request_text host) empty_mirror t taken untaken result
        → AllByRecursion (AnswersIn IsCalendarAnsweredOver w) untaken
        → IsCalendarUnderstood result }
{
    replies_fit();
    mirror_world::syncs_are_understood();
    calendar_world::syncs_are_understood();
}
