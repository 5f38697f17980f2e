//! Laws of a primary that begins again with another history, each the contract of a function that
//! does nothing.
ghost use Rattle.std.specs.Prelude.{◌≤◌, ◌++◌, ℕ, List, ◌∷◌, length};
ghost use Rattle.td_base.specs.declared.upstream.Exchange.{Exchange};
ghost use Rattle.catalogue.specs.Histories.{IsHistory};
ghost use Rattle.catalogue.specs.Releases.{ReleaseData};
ghost use Rattle.http_client.specs.Requests.{request_text};
ghost use Rattle.zone_meaning.specs.Sound.{IsSound};
ghost use Rattle.sync_core.specs.Mirrors.{MirrorState};
ghost use Rattle.mirror.specs.Understanding.{Means};
ghost use Rattle.sync_world.specs.Hearing.{action_service};
ghost use Rattle.sync_world.specs.Worlds.{SyncWorld, WorldStep, world_begun};
ghost use Rattle.mirror_world.specs.Answers.{IsAnsweredOver};
ghost use Rattle.mirror_world.specs.Logs.{Logs};
ghost use Rattle.mirror_world.specs.Runs.{HoldInTurn, Share, SyncsInTurn, all_taken};
ghost use Rattle.sync_laws.specs.Restarts.{BeginsAgain};

use mirror::one_meaning;
use mirror_world::mirrors_follow;

/// Takes a mirror in any state, and a sync in which it comes to ask for a list without a token.
/// From there on, a world of its own brings the answers of this sync and of those after it: a
/// primary with any history, whatever the mirror followed before. After each sync that ended well,
/// the mirror holds exactly the release over which the primary answered the last exchange of the
/// sync, and never an earlier one than before. Fails if a full list leaves something of what was
/// held.
pub fn restarted_primaries_are_followed()
    ensures { (H : List ReleaseData) (steps : List WorldStep) (v : SyncWorld) (host : List ℕ)
        (s t : MirrorState) (share : Share) (shares : List Share) (first rest : List Exchange)
        → IsHistory IsSound H → 1 ≤ length H → BeginsAgain host s share first rest
        → Logs IsSound IsAnsweredOver Means (world_begun H) steps (rest ++ all_taken shares) v
        → SyncsInTurn (request_text host) Means s (share ∷ shares) t
        → HoldInTurn IsAnsweredOver action_service v.history (length H) (share ∷ shares) }
{
    mirrors_follow();
    mirror_world::histories_go_on();
    one_meaning();
}
