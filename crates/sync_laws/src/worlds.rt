//! Laws of a mirror and the server that it follows.
ghost use Rattle.std.specs.Prelude.{◌≡◌, ◌≤◌, ℕ, List, length, Some, IsTrue};
ghost use Rattle.catalogue.specs.Histories.{IsHistory};
ghost use Rattle.catalogue.specs.Releases.{ReleaseData};
ghost use Rattle.http_request.specs.Judging.{is_host};
ghost use Rattle.zone_meaning.specs.Sound.{IsSound};
ghost use Rattle.sync_world.specs.Hearing.{IsHeardOver};
ghost use Rattle.sync_world.specs.Reaching.{ComesToHold};
ghost use Rattle.sync_world.specs.Worlds.{Leads, Sent, SyncWorld, WorldStep, world_begun};
ghost use Rattle.mirror_world.specs.Asking.{IsAskable};

use mirror_world::requests_ask;

/// Any request that a mirror has to send can be written as a head that its server reads, whatever
/// steps led to it. Fails if a token or an identifier can be one that no request can carry.
pub fn requests_can_be_sent()
    ensures { (H : List ReleaseData) (steps : List WorldStep) (w : SyncWorld) (sent : Sent)
        (host : List ℕ) → IsHistory IsSound H → 1 ≤ length H
        → Leads IsSound IsHeardOver (world_begun H) steps w → w.sent ≡ Some sent
        → IsTrue (is_host host) → length host ≤ 255 → IsAskable host sent.ask }
{}

/// Wherever steps lead, requests and responses lead on to a mirror that is in sync, with no premise
/// about the server. Fails if a state of a mirror can never get in sync again.
pub fn mirrors_come_to_hold()
    ensures { (H : List ReleaseData) (steps : List WorldStep) (w : SyncWorld) → IsHistory IsSound H
        → 1 ≤ length H → Leads IsSound IsHeardOver (world_begun H) steps w
        → ComesToHold IsSound IsHeardOver w }
{
    requests_ask();
}
