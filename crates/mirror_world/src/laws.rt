//! The laws, each the contract of a function that does nothing.
ghost use Rattle.std.specs.Prelude.{◌≡◌, ◌≢◌, ℕ, ◌<◌, ◌≤◌, List, [], ◌∷◌, ◌++◌, length, take, Some};
ghost use Rattle.std.specs.Prelude.{Ok};
ghost use Rattle.std.specs.Prelude.{Result};
ghost use Rattle.td_base.specs.Views.{File};
ghost use Rattle.td_base.specs.declared.report.Ask.{Ask};
ghost use Rattle.td_base.specs.declared.report.Role.TheVariants.{Primary};
ghost use Rattle.td_base.specs.declared.upstream.Exchange.{Exchange};
ghost use Rattle.catalogue.specs.Histories.{IsHistory};
ghost use Rattle.catalogue.specs.Lookups.{zones_of};
ghost use Rattle.catalogue.specs.Releases.{ReleaseData};
ghost use Rattle.zone_meaning.specs.Sound.{IsSound};
ghost use Rattle.release_check.specs.Before.{Before, before_of};
ghost use Rattle.release_check.specs.Folder.{examined_in};
ghost use Rattle.negotiate.specs.declared.choosing.Format.{Format};
ghost use Rattle.negotiate.specs.declared.choosing.Format.TheVariants.{Calendar};
ghost use Rattle.actions.specs.Action.{action};
ghost use Rattle.http_client.specs.CalendarRequests.{calendar_request_text};
ghost use Rattle.http_client.specs.Requests.{request_text};
ghost use Rattle.http_request.specs.declared.head.Head.{Head};
ghost use Rattle.sync_core.specs.Mirrors.{MirrorState, ask_of, empty_mirror};
ghost use Rattle.sync_core.specs.Published.{HasFiles, manifest_of};
ghost use Rattle.sync_core.specs.Steps.{sync_step};
ghost use Rattle.sync_core.specs.declared.heard_type.Heard.{Heard};
ghost use Rattle.sync_core.specs.declared.heard_type.Heard.TheVariants as heard;
ghost use Rattle.mirror.specs.Shares.{IsFor, SyncEnds, WalksOn};
ghost use Rattle.mirror.specs.Understanding.{Means};
ghost use Rattle.mirror.specs.declared.limits.TheConstants.{MOST_ANSWER};
ghost use Rattle.mirror.specs.declared.sync_fault.SyncFault.{SyncFault};
ghost use Rattle.mirror.specs.declared.understood_type.Understood.TheVariants as understood;
ghost use Rattle.sync_world.specs.Hearing.{IsDataHeardOver, IsHeardIn, IsHeardOver, action_service};
ghost use Rattle.sync_world.specs.Holding.{HoldsLast, SaysHolds};
ghost use Rattle.sync_world.specs.Primaries.{AsksSinceKept, IsPlace};
ghost use Rattle.sync_world.specs.Worlds.{Sent, SyncWorld, WorldStep, world_begun};
ghost use Rattle.mirror_world.specs.Answers.{AreAnswered, IsAnswered, IsAnsweredOver};
ghost use Rattle.mirror_world.specs.Answers.{IsDataAnsweredOver, IsDataRequestFor, IsRequestFor};
ghost use Rattle.mirror_world.specs.Asking.{IsAskable};
ghost use Rattle.mirror_world.specs.Contents.{MayFollow, contents_of_state};
ghost use Rattle.mirror_world.specs.Follows.{FollowsFrom};
ghost use Rattle.mirror_world.specs.Logs.{Logs};
ghost use Rattle.mirror_world.specs.Runs.{HoldInTurn, HoldsAt, IsUnderstood, Share, SyncsInTurn};
ghost use Rattle.mirror_world.specs.Runs.{all_taken};
ghost use Rattle.mirror_world.specs.Settling.{IsSettled, SecondListIsEmpty, SettlesSecond};

use http_client::{calendar_requests_are_heads, requests_are_heads};
use mirror::one_meaning;
use sync_world::{mirrors_hold_releases, requests_are_answered};
use target::asks_by_name;

/// A request that a mirror writes is one request head, for exactly what the mirror needs.
pub fn requests_ask()
    ensures { (host : List ℕ) (a : Ask) → IsAskable host a
        → (head : Head) × IsRequestFor a (request_text host a) head }
{
    requests_are_heads();
    asks_by_name();
}

/// The same for a mirror that keeps calendars, whose requests are for zones as calendars.
pub fn calendar_requests_ask()
    ensures { (host : List ℕ) (a : Ask) → IsAskable host a
        → (head : Head) × IsDataRequestFor Calendar a (calendar_request_text host a) head }
{
    calendar_requests_are_heads();
    asks_by_name();
}

/// What a mirror decodes from an exchange with a primary is what the answer of the action contains.
pub fn answers_are_heard_in_bytes()
    ensures { (G : List ReleaseData) (a : Ask) (x : Exchange) (h : Heard) → IsAnsweredOver G a x
        → Means a x.answer (understood.Hears h) → IsHeardOver G a h }
{}

/// The same when zones are requested in any format.
pub fn data_is_heard_in_bytes()
    ensures { (f : Format) (G : List ReleaseData) (a : Ask) (x : Exchange) (h : Heard)
        → IsDataAnsweredOver f G a x → Means a x.answer (understood.Hears h)
        → IsDataHeardOver f G a h }
{}

/// Conversely, what the answer of the action contains is decoded from each exchange that is not
/// cut.
pub fn data_is_meant_in_bytes()
    ensures { (f : Format) (G : List ReleaseData) (a : Ask) (x : Exchange) (h : Heard)
        → (o : IsDataAnsweredOver f G a x) → length x.answer < MOST_ANSWER
        → IsHeardIn a (action G Primary o.head) h → Means a x.answer (understood.Hears h) }
{}

/// The answers that a world brings to its mirror, which begins empty, are those of a primary. Its
/// history is the world's at the end, and each answer is over a part of it that begins with the
/// history at the start. Whenever an answer makes the mirror claim that it is in sync, it holds
/// exactly the last release of that part.
pub fn mirrors_follow()
    ensures { (H : List ReleaseData) (steps : List WorldStep) (xs : List Exchange) (v : SyncWorld)
        → IsHistory IsSound H → 1 ≤ length H
        → Logs IsSound IsAnsweredOver Means (world_begun H) steps xs v
        → FollowsFrom IsAnsweredOver Means action_service v.history (length H) empty_mirror xs
        v.mirror }
{
    mirrors_hold_releases();
}

/// The history of a world only grows, and each beginning of it is a history.
pub fn histories_go_on()
    ensures { (H : List ReleaseData) (steps : List WorldStep) (xs : List Exchange) (v : SyncWorld)
        (n : ℕ) → IsHistory IsSound H
        → Logs IsSound IsAnsweredOver Means (world_begun H) steps xs v
        → (length H ≤ length v.history) × IsHistory IsSound (take n v.history) }
{}

/// A sync over the first of these answers. When it ends well, its last exchange was answered over
/// the first n releases and the mirror holds exactly the last of them. The other answers continue
/// from there.
pub fn syncs_hold()
    ensures { (G : List ReleaseData) (least : ℕ) (host : List ℕ) (s t v : MirrorState)
        (taken untaken more : List Exchange) (result : Result (Unit {0}) SyncFault)
        → least ≤ length G
        → FollowsFrom IsAnsweredOver Means action_service G least s (taken ++ more) v
        → SyncEnds (request_text host) Means s t taken untaken result
        → (n : ℕ) × HoldsAt IsAnsweredOver action_service G least n taken t result
        × FollowsFrom IsAnsweredOver Means action_service G n t more v }
{
    one_meaning();
}

/// Takes a world that brings answers to an empty mirror, where these are the answers that its syncs
/// applied, one sync after another. After each sync that ended well, the mirror holds exactly the
/// release over which the primary answered the last exchange of the sync. It is never an earlier
/// release than before.
pub fn mirrors_hold_in_turn()
    ensures { (H : List ReleaseData) (steps : List WorldStep) (v : SyncWorld) (host : List ℕ)
        (shares : List Share) (t : MirrorState)
        → IsHistory IsSound H → 1 ≤ length H
        → Logs IsSound IsAnsweredOver Means (world_begun H) steps (all_taken shares) v
        → SyncsInTurn (request_text host) Means empty_mirror shares t
        → HoldInTurn IsAnsweredOver action_service v.history (length H) shares }
{
    mirrors_hold_releases();
    one_meaning();
}

/// The same for one walk whose last answer puts the mirror in sync.
pub fn walks_hold()
    ensures { (H : List ReleaseData) (steps : List WorldStep) (v : SyncWorld) (host : List ℕ)
        (xs : List Exchange) (x : Exchange) (lists : ℕ) (t : MirrorState) (h : Heard)
        → IsHistory IsSound H → 1 ≤ length H
        → Logs IsSound IsAnsweredOver Means (world_begun H) steps (xs ++ x ∷ []) v
        → WalksOn (request_text host) Means empty_mirror xs 0 lists t
        → IsFor (request_text host) Means t x (understood.Hears h) → SaysHolds t h
        → (n : ℕ) × IsPlace v.history n
        × HoldsLast action_service (sync_step t h) (take n v.history) }
{
    mirrors_hold_releases();
    one_meaning();
}

/// An exchange that answers what is outstanding in a world, and is not cut, decodes to something
/// that the mirror applies. It does not refuse the token of one of the last places.
pub fn answers_are_understood()
    ensures { (H : List ReleaseData) (steps : List WorldStep) (xs : List Exchange) (w : SyncWorld)
        (n : ℕ) (sent : Sent) (x : Exchange)
        → IsHistory IsSound H → 1 ≤ length H
        → Logs IsSound IsAnsweredOver Means (world_begun H) steps xs w
        → IsAnswered IsAnsweredOver w n sent x → length x.answer < MOST_ANSWER
        → (h : Heard) × Means (ask_of w.mirror) x.answer (understood.Hears h)
        × (AsksSinceKept action_service w.history n sent.ask → h ≢ heard.BadToken) }
{
    requests_are_answered();
}

/// So after these syncs no sync ends with a fault of an answer. This holds if the exchange whose
/// answer was not applied, if one exists, answers what is outstanding and is not cut.
pub fn syncs_are_understood()
    ensures { (H : List ReleaseData) (steps : List WorldStep) (w : SyncWorld) (host : List ℕ)
        (shares : List Share) (s t : MirrorState) (taken untaken : List Exchange)
        (result : Result (Unit {0}) SyncFault)
        → IsHistory IsSound H → 1 ≤ length H
        → Logs IsSound IsAnsweredOver Means (world_begun H) steps (all_taken shares ++ taken) w
        → SyncsInTurn (request_text host) Means empty_mirror shares s
        → SyncEnds (request_text host) Means s t taken untaken result
        → AreAnswered w untaken → IsUnderstood result }
{
    mirrors_hold_releases();
    requests_are_answered();
    one_meaning();
}

/// Takes a sync of an empty mirror, over exchanges in which the second answer to a list is an empty
/// list of changes. It ends well, except for faults of the network or of memory. When it ends well,
/// it used no more exchanges than these.
pub fn syncs_settle()
    ensures ends { (host : List ℕ) (t : MirrorState) (taken untaken xs more : List Exchange)
        (result : Result (Unit {0}) SyncFault) → SecondListIsEmpty Means xs
        → taken ++ untaken ≡ xs ++ more
        → SyncEnds (request_text host) Means empty_mirror t taken untaken result
        → IsSettled result }
    ensures takes { (host : List ℕ) (t : MirrorState) (taken untaken xs more : List Exchange)
        (result : Result (Unit {0}) SyncFault) → SecondListIsEmpty Means xs
        → taken ++ untaken ≡ xs ++ more
        → SyncEnds (request_text host) Means empty_mirror t taken untaken result
        → result ≡ Ok tt → (rest : List Exchange) × (xs ≡ taken ++ rest) }
{
    one_meaning();
}

/// So what the mirror states after a sync that ended well, over the exchanges of a primary, passes
/// the check of a first release.
pub fn settled_mirrors_pass()
    ensures { (host : List ℕ) (t : MirrorState) (taken untaken xs more : List Exchange)
        (files : List File) (result : Result (Unit {0}) SyncFault)
        → SettlesSecond IsAnsweredOver xs → taken ++ untaken ≡ xs ++ more
        → SyncEnds (request_text host) Means empty_mirror t taken untaken result → result ≡ Ok tt
        → HasFiles files t.files
        → (r : ReleaseData) × (examined_in files [] (before_of []) (manifest_of t) ≡ Ok r) }
{
    mirrors_hold_releases();
    one_meaning();
    syncs_settle();
    held_releases_pass();
}

/// A mirror that holds exactly a release of the primary states the contents of that release.
pub fn contents_are_held()
    ensures { (G : List ReleaseData) (s : MirrorState) → IsHistory IsSound G → 1 ≤ length G
        → HoldsLast action_service s G → contents_of_state s ≡ Some (zones_of G) }
{}

/// So does its manifest with its files, if it passes the check of a release.
pub fn releases_are_held()
    ensures { (G : List ReleaseData) (s : MirrorState) (files : List File) (before : Before)
        (r : ReleaseData) → IsHistory IsSound G → 1 ≤ length G → HoldsLast action_service s G
        → HasFiles files s.files → examined_in files [] before (manifest_of s) ≡ Ok r
        → r.contents ≡ zones_of G }
{}

/// It passes that check whenever a release with its stamp and its names may follow; so the first
/// one always passes.
pub fn held_releases_pass()
    ensures follows { (G : List ReleaseData) (s : MirrorState) (files : List File)
        (before : Before) → IsHistory IsSound G → 1 ≤ length G → HoldsLast action_service s G
        → HasFiles files s.files → MayFollow before (manifest_of s)
        → (r : ReleaseData) × (examined_in files [] before (manifest_of s) ≡ Ok r) }
    ensures first { (s : MirrorState) → MayFollow (before_of []) (manifest_of s) }
{}
