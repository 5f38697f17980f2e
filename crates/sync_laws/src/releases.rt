//! Laws of what a mirror states of a release that it holds, each the contract of a function that
//! does nothing.
ghost use Rattle.std.specs.Prelude.{◌≡◌, ◌<◌, ◌≤◌, ℕ, List, length, take, None, Some};
ghost use Rattle.catalogue.specs.Histories.{IsHistory};
ghost use Rattle.catalogue.specs.Lookups.{zones_of};
ghost use Rattle.catalogue.specs.Releases.{ReleaseData};
ghost use Rattle.zone_meaning.specs.Sound.{IsSound};
ghost use Rattle.release_check.specs.Before.{drop_fault, stamp_fault};
ghost use Rattle.release_check.specs.Faults.{names_in};
ghost use Rattle.sync_core.specs.Mirrors.{MirrorState};
ghost use Rattle.sync_core.specs.Published.{manifest_of};
ghost use Rattle.sync_world.specs.Holding.{HoldsLast};
ghost use Rattle.sync_world.specs.Primaries.{Service};
ghost use Rattle.sync_laws.specs.LastChange.{IsServedAs, StatesLastChange};

/// A mirror that holds a release states stamp, publisher and version of the release in which a zone
/// of it last changed. Fails if new zones are served under the labels of an older release.
pub fn held_releases_state_their_last_change()
    ensures { (P : Service) (G : List ReleaseData) (s : MirrorState) → IsHistory IsSound G
        → 0 < length (zones_of G) → HoldsLast P s G → StatesLastChange G (manifest_of s) }
{}

/// What a mirror holds at a place may follow what it served of an earlier place: it is not earlier
/// and drops no name. Fails if the mirror's own check can refuse a good sync.
pub fn later_releases_may_follow()
    ensures stamp { (P : Service) (G : List ReleaseData) (m n : ℕ) (s t : MirrorState)
        (last : ReleaseData) → IsHistory IsSound G → 1 ≤ m → m ≤ n → n ≤ length G
        → HoldsLast P s (take m G) → HoldsLast P t (take n G) → IsServedAs s (take m G) last
        → stamp_fault (Some last) (manifest_of t).stamp ≡ None }
    ensures names { (P : Service) (G : List ReleaseData) (m n : ℕ) (s t : MirrorState)
        (last : ReleaseData) → IsHistory IsSound G → 1 ≤ m → m ≤ n → n ≤ length G
        → HoldsLast P s (take m G) → HoldsLast P t (take n G) → IsServedAs s (take m G) last
        → drop_fault (Some last) (names_in (manifest_of t).zones) ≡ None }
{}
