//! The laws, each the contract of a function that does nothing.
ghost use Rattle.std.specs.Prelude.{◌≡◌, ◌≢◌, ◌↔◌, ℕ, ◌≤◌, List, length, take, Some};
ghost use Rattle.std.specs.Option.{IsSomeAnd};
ghost use Rattle.td_base.specs.declared.report.Ask.{Ask};
ghost use Rattle.td_base.specs.declared.report.Ask.TheVariants as ask;
ghost use Rattle.td_base.specs.declared.report.Role.TheVariants.{Primary};
ghost use Rattle.catalogue.specs.Histories.{IsHistory};
ghost use Rattle.catalogue.specs.Releases.{ReleaseData};
ghost use Rattle.http_request.specs.declared.head.Head.{Head};
ghost use Rattle.zone_meaning.specs.Sound.{IsSound};
ghost use Rattle.actions.specs.Action.{action};
ghost use Rattle.sync_core.specs.Mirrors.{entry_name};
ghost use Rattle.sync_core.specs.Names.{put_all};
ghost use Rattle.sync_core.specs.Steps.{kept_entries};
ghost use Rattle.sync_core.specs.declared.heard_type.Heard.{Heard};
ghost use Rattle.sync_core.specs.declared.heard_type.Heard.TheVariants as heard;
ghost use Rattle.sync_world.specs.Calendars.{HoldsCalendars, IsCalendarHeadOf, IsCalendarHeardOver};
ghost use Rattle.sync_world.specs.Calendars.{calendar_service};
ghost use Rattle.sync_world.specs.Hearing.{IsHeardIn, IsHeadOf, IsHeardOver, action_service};
ghost use Rattle.sync_world.specs.Holding.{HoldsLast, SaysHolds};
ghost use Rattle.sync_world.specs.Primaries.{AsksSinceKept, IsPlace, IsTokenOf, ServesSo};
ghost use Rattle.sync_world.specs.Primaries.{changes_of, list_told, told_by};
ghost use Rattle.sync_world.specs.Reaching.{ComesToHold, ToldIsHeard};
ghost use Rattle.sync_world.specs.Worlds.{Sent, WorldStep, SyncWorld, IsAnswer, Leads, world_begun};

use crate::Primary;
use catalogue::ZoneData;

/// What a mirror receives in the answer to a request is exactly what the primary has to report.
/// Lists that are written read back as the same lists.
pub fn answers_are_heard()
    ensures { (H : List ReleaseData) (a : Ask) (head : Head) (h : Heard) → IsHistory IsSound H
        → 1 ≤ length H → IsHeadOf a head
        → (told_by action_service H a ≡ Some h) ↔ IsHeardIn a (action H Primary head) h }
{}

/// Each request for what is outstanding is answered, at each place from the one at which it was
/// first sent. The answer does not refuse the token of one of the last places.
pub fn requests_are_answered()
    ensures { (H : List ReleaseData) (steps : List WorldStep) (w : SyncWorld) (sent : Sent)
        (n : ℕ) (head : Head)
        → IsHistory IsSound H → 1 ≤ length H → Leads IsSound IsHeardOver (world_begun H) steps w
        → w.sent ≡ Some sent → sent.since ≤ n → n ≤ length w.history → IsHeadOf sent.ask head
        → (h : Heard) × IsHeardIn sent.ask (action (take n w.history) Primary head) h
        × (AsksSinceKept action_service w.history n sent.ask → h ≢ heard.BadToken) }
{}

/// What a mirror receives in the answers of the actions is what the primary has to report. Each
/// token is recognised as that of its place.
pub fn actions_serve()
    ensures { ServesSo IsSound IsHeardOver action_service }
{}

/// The law for this service. Take any steps from a history and an empty mirror. Suppose the answer
/// over the first n releases makes the mirror claim that it is in sync. Then it holds exactly the
/// last of these n releases. The answers are those of the actions, and the releases are sound as
/// this service defines it.
pub fn mirrors_hold_releases()
    ensures { (H : List ReleaseData) (steps : List WorldStep) (w v : SyncWorld) (n : ℕ)
        (sent : Sent) (h : Heard)
        → IsHistory IsSound H → 1 ≤ length H → Leads IsSound IsHeardOver (world_begun H) steps w
        → IsAnswer IsHeardOver w n v sent h → SaysHolds w.mirror h
        → HoldsLast action_service v.mirror (take n w.history) }
{}

/// The same for a mirror that requests calendars instead of files. It holds exactly the calendars
/// of the zones of the last of these n releases.
pub fn mirrors_hold_calendars()
    ensures { (H : List ReleaseData) (steps : List WorldStep) (w v : SyncWorld) (n : ℕ)
        (sent : Sent) (h : Heard)
        → IsHistory IsSound H → 1 ≤ length H
        → Leads IsSound IsCalendarHeardOver (world_begun H) steps w
        → IsAnswer IsCalendarHeardOver w n v sent h → SaysHolds w.mirror h
        → HoldsCalendars v.mirror (take n w.history) }
{}

/// What a mirror receives in the answer to a request for calendars is exactly what the primary has
/// to report.
pub fn calendars_are_heard()
    ensures { (H : List ReleaseData) (a : Ask) (head : Head) (h : Heard) → IsHistory IsSound H
        → 1 ≤ length H → IsCalendarHeadOf a head
        → (told_by calendar_service H a ≡ Some h) ↔ IsHeardIn a (action H Primary head) h }
{}

/// Each such request for what is outstanding is answered, as a request for files is.
pub fn calendar_requests_are_answered()
    ensures { (H : List ReleaseData) (steps : List WorldStep) (w : SyncWorld) (sent : Sent)
        (n : ℕ) (head : Head)
        → IsHistory IsSound H → 1 ≤ length H
        → Leads IsSound IsCalendarHeardOver (world_begun H) steps w
        → w.sent ≡ Some sent → sent.since ≤ n → n ≤ length w.history
        → IsCalendarHeadOf sent.ask head
        → (h : Heard) × IsHeardIn sent.ask (action (take n w.history) Primary head) h
        × (AsksSinceKept calendar_service w.history n sent.ask → h ≢ heard.BadToken) }
{}

/// The law of any primary that serves as the definition `ServesSo` requires.
pub fn mirrors_hold<P: Primary>()
    ensures { (H : List ReleaseData) (steps : List WorldStep) (w v : SyncWorld) (n : ℕ)
        (sent : Sent) (h : Heard)
        → ServesSo P.sound P.hears P.service → IsHistory P.sound H → 1 ≤ length H
        → Leads P.sound P.hears (world_begun H) steps w
        → IsAnswer P.hears w n v sent h → SaysHolds w.mirror h
        → HoldsLast P.service v.mirror (take n w.history) }
{}

/// From each reachable state, further requests and answers lead to one in which the mirror claims
/// that it is in sync. This needs that all that the primary has to report is received, and that the
/// primary recognises the token of its last place.
pub fn holds_comes<P: Primary>()
    ensures { (H : List ReleaseData) (steps : List WorldStep) (w : SyncWorld)
        → ServesSo P.sound P.hears P.service → ToldIsHeard P.sound P.hears P.service
        → 1 ≤ P.service.kept → IsHistory P.sound H → 1 ≤ length H
        → Leads P.sound P.hears (world_begun H) steps w → ComesToHold P.sound P.hears w }
{}

/// An outstanding request has an answer at each place from the one at which it was first sent. No
/// answer refuses its token while no token is retired.
pub fn asks_are_answered<P: Primary>()
    ensures { (H : List ReleaseData) (steps : List WorldStep) (w : SyncWorld) (sent : Sent) (n : ℕ)
        → ServesSo P.sound P.hears P.service → IsHistory P.sound H → 1 ≤ length H
        → Leads P.sound P.hears (world_begun H) steps w
        → w.sent ≡ Some sent → sent.since ≤ n → n ≤ length w.history
        → IsSomeAnd (told_by P.service (take n w.history) sent.ask)
        (λ h. length w.history ≤ P.service.kept → h ≢ heard.BadToken) }
{}

/// The token of an outstanding request is that of a place, and no answer refuses it until that
/// place is retired.
pub fn tokens_are_refused_late<P: Primary>()
    ensures { (H : List ReleaseData) (steps : List WorldStep) (w : SyncWorld) (since : ℕ)
        (token : List ℕ)
        → ServesSo P.sound P.hears P.service → IsHistory P.sound H → 1 ≤ length H
        → Leads P.sound P.hears (world_begun H) steps w
        → w.sent ≡ Some (record { ask = ask.List (Some token); since = since })
        → IsTokenOf P.service w.history since token }
{}

/// The list of an earlier place, updated by the list of changes since, is the list of the last
/// place. A name that became an alias is removed by the change of the zone that it now belongs to.
pub fn aliases_follow<Z: ZoneData>()
    ensures { (H : List ReleaseData) (n : ℕ) → IsHistory Z.sound H → IsPlace H n
        → put_all entry_name (changes_of H n) (kept_entries (changes_of H n) (list_told (take n H)))
        ≡ list_told H }
{}
