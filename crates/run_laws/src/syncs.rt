//! How the syncs of a run with a primary end.
ghost use Rattle.std.specs.Prelude.{◌≡◌, ◌≤◌, ◌++◌, ◌∷◌, ℕ, List, length};
ghost use Rattle.std.specs.List.{AllByRecursion};
ghost use Rattle.td_base.specs.Upstreams.{UpstreamView};
ghost use Rattle.td_base.specs.declared.upstream.Exchange.{Exchange};
ghost use Rattle.catalogue.specs.Histories.{IsHistory};
ghost use Rattle.catalogue.specs.Releases.{ReleaseData};
ghost use Rattle.zone_meaning.specs.Sound.{IsSound};
ghost use Rattle.mirror.specs.Understanding.{Means};
ghost use Rattle.sync_world.specs.Worlds.{SyncWorld, WorldStep, world_begun};
ghost use Rattle.mirror_world.specs.Answers.{IsAnsweredOver};
ghost use Rattle.mirror_world.specs.Logs.{Logs};
ghost use Rattle.mirror_world.specs.Runs.{IsUnderstood, Share, all_taken};
ghost use Rattle.sync_laws.specs.WorldAnswers.{AnswersIn};
ghost use Rattle.run_laws.specs.Runs.{FollowsPrimary};
ghost use Rattle.run_laws.specs.Stretches.{IsStretch, ServeItsReleases};

use mirror_world::{histories_go_on, releases_are_held};
use sync_laws::{answered_syncs_are_understood, restarted_primaries_are_followed};

/// Takes a run that follows a primary, and one of its syncs. A world brings the answers that were
/// taken up to the end of this sync, and each answer that was not taken is one of its primary, too.
/// Then the sync does not end with a bad or a refused answer. Fails if a run can refuse what a
/// primary answers.
pub fn runs_understand_their_primary()
    ensures { (host : List ℕ) (first last : UpstreamView) (history : List ReleaseData)
        (follows : FollowsPrimary host first last history) (before : List Share) (share : Share)
        (after : List Share) (H : List ReleaseData) (steps : List WorldStep) (w : SyncWorld)
        → follows.shares ≡ before ++ share ∷ after → IsHistory IsSound H → 1 ≤ length H
        → Logs IsSound IsAnsweredOver Means (world_begun H) steps (all_taken before ++ share.taken) w
        → AllByRecursion (AnswersIn IsAnsweredOver w) share.untaken → IsUnderstood share.result }
{
    answered_syncs_are_understood();
}

/// Takes a run that follows a primary, and some of its syncs, from one within which a list is asked
/// without a token. A world of its own brings their answers from there on: a primary with any
/// history, whatever came before and comes after. Then each release that they published is one of
/// that primary's. So a primary that begins again voids nothing that was served before. Fails if a
/// run serves a mixture of two primaries.
pub fn another_history_is_served()
    ensures { (host : List ℕ) (first last : UpstreamView) (history : List ReleaseData)
        (follows : FollowsPrimary host first last history) (share : Share) (stretch : List Share)
        (rest : List Exchange) (H : List ReleaseData) (steps : List WorldStep) (v : SyncWorld)
        → IsStretch host first last history follows share stretch rest
        → IsHistory IsSound H → 1 ≤ length H
        → Logs IsSound IsAnsweredOver Means (world_begun H) steps (rest ++ all_taken stretch) v
        → ServeItsReleases v.history (share ∷ stretch) }
{
    restarted_primaries_are_followed();
    histories_go_on();
    releases_are_held();
}
