//! The laws, each the contract of a function that does nothing.
ghost use Rattle.std.specs.Prelude.{◌≡◌, ◌≤◌, ◌++◌, ℕ, List, Option, None, Some, IfSome, length};
ghost use Rattle.std.specs.Prelude.{true};
ghost use Rattle.std.specs.Prelude.{Result, Ok};
ghost use Rattle.td_base.specs.Names.{is_identifier};
ghost use Rattle.td_base.specs.declared.report.Ask.{Ask};
ghost use Rattle.td_base.specs.declared.report.Ask.TheVariants as ask;
ghost use Rattle.td_base.specs.declared.upstream.Exchange.{Exchange};
ghost use Rattle.td_civil.specs.Bounds.{HasMeaning};
ghost use Rattle.td_civil.specs.declared.moment_type.Moment.{Moment};
ghost use Rattle.catalogue.specs.Histories.{IsHistory};
ghost use Rattle.catalogue.specs.Lookups.{zone_at, zones_of};
ghost use Rattle.catalogue.specs.Releases.{ContentData, ReleaseData};
ghost use Rattle.zone_meaning.specs.Sound.{IsSound, IsSoundFile};
ghost use Rattle.vtimezone.specs.CalendarText.{calendar};
ghost use Rattle.http_client.specs.CalendarRequests.{calendar_request_text};
ghost use Rattle.sync_core.specs.Mirrors.{MirrorState, empty_mirror};
ghost use Rattle.sync_core.specs.declared.heard_type.Heard.{Heard};
ghost use Rattle.mirror.specs.Understanding.{Means};
ghost use Rattle.mirror.specs.declared.understood_type.Understood.TheVariants as understood;
ghost use Rattle.vtimezone_reader.specs.Written.{parts_after};
ghost use Rattle.vtimezone_reader.specs.declared.calendar_type.TheConstants.{MOST_BYTES};
ghost use Rattle.calendar_mirror.specs.CalendarShares.{CalendarSyncEnds};
ghost use Rattle.calendar_mirror.specs.Judging.{IsJudged, MeansSound, hears};
ghost use Rattle.calendar_mirror.specs.declared.judged_type.Judged.{Judged};
ghost use Rattle.calendar_mirror.specs.declared.sync_fault.CalendarSyncFault.{CalendarSyncFault};
ghost use Rattle.sync_world.specs.Calendars.{HoldsCalendars, IsCalendarHeardOver};
ghost use Rattle.sync_world.specs.Worlds.{IsAnswer, Leads, Sent, SyncWorld, WorldStep, world_begun};
ghost use Rattle.mirror_world.specs.Logs.{Logs};
ghost use Rattle.mirror_world.specs.Settling.{SettlesSecond};
ghost use Rattle.calendar_world.specs.Endings.{AreCalendarsAnswered, HoldsAt};
ghost use Rattle.calendar_world.specs.Endings.{IsCalendarAnsweredOver};
ghost use Rattle.calendar_world.specs.Endings.{IsSettled, IsCalendarUnderstood};
ghost use Rattle.calendar_world.specs.Reading.{IsCalendarAnswer, KeepsCalendarText};

use calendar_mirror::one_judgement;
use mirror::one_meaning;
use mirror_world::{data_is_heard_in_bytes, data_is_meant_in_bytes};
use sync_world::{calendar_requests_are_answered, calendars_are_heard, mirrors_hold_calendars};
use vtimezone::zone_parts_are_spellable;
use vtimezone_reader::{zone_is_read, zone_is_told};

/// The calendar of a sound zone, from a moment on and without an end, is short enough to be read.
/// Its file has at most 4,096 transitions, and each makes a part or a date.
pub fn calendars_fit()
    ensures { (file : List ℕ) (from : Moment) (tzid : List ℕ) (alias_of : Option (List ℕ))
        → IsSoundFile file → HasMeaning from.seconds → is_identifier tzid ≡ true
        → IfSome alias_of (λ t. is_identifier t ≡ true)
        → length (calendar tzid alias_of (parts_after file from) None) ≤ MOST_BYTES }
{
    zone_parts_are_spellable();
}

/// What a mirror decodes when a zone is requested as a calendar is a calendar of that name. It
/// gives the observances of the zone that has the name in the last release.
pub fn calendars_are_read()
    ensures { (G : List ReleaseData) (name : List ℕ) (h : Heard) → IsHistory IsSound G
        → 1 ≤ length G → IsCalendarHeardOver G (ask.Get name) h → IsCalendarAnswer G name h }
{
    calendars_are_heard();
    calendars_fit();
    zone_is_read();
    zone_is_told();
}

/// So an answer that is decoded in any world is applied as it is. It is never judged to be no
/// calendar, or the calendar of another zone.
pub fn answers_are_sound()
    ensures { (H : List ReleaseData) (steps : List WorldStep) (w v : SyncWorld) (n : ℕ)
        (sent : Sent) (h : Heard) (answer : List ℕ) (j : Judged)
        → IsHistory IsSound H → 1 ≤ length H
        → Leads IsSound IsCalendarHeardOver (world_begun H) steps w
        → IsAnswer IsCalendarHeardOver w n v sent h
        → Means sent.ask answer (understood.Hears h) → IsJudged sent.ask answer j → j ≡ hears h }
{
    calendars_are_heard();
    calendars_fit();
    zone_is_read();
    zone_is_told();
    one_meaning();
}

/// Takes a world that brings answers to an empty mirror, where these are the answers that a sync
/// applied. The sync does not end with a fault of an answer. This holds if the exchange whose
/// answer was not applied, if one exists, answers what is outstanding and is not cut.
pub fn syncs_are_understood()
    ensures { (H : List ReleaseData) (steps : List WorldStep) (w : SyncWorld) (host : List ℕ)
        (t : MirrorState) (taken untaken : List Exchange)
        (result : Result (Unit {0}) CalendarSyncFault)
        → IsHistory IsSound H → 1 ≤ length H
        → Logs IsSound IsCalendarAnsweredOver MeansSound (world_begun H) steps taken w
        → CalendarSyncEnds (calendar_request_text host) empty_mirror t taken untaken result
        → AreCalendarsAnswered w untaken → IsCalendarUnderstood result }
{
    mirrors_hold_calendars();
    calendar_requests_are_answered();
    calendars_are_heard();
    data_is_heard_in_bytes();
    data_is_meant_in_bytes();
    calendars_fit();
    zone_is_read();
    zone_is_told();
    one_meaning();
    one_judgement();
}

/// Takes exchanges of a primary in which the second answer to a list is an empty list of changes. A
/// sync over them ends well, except for faults of the network or of memory. Whatever calendars they
/// bring are applied, and no further list is requested.
pub fn syncs_settle()
    ensures { (host : List ℕ) (t : MirrorState) (taken untaken xs more : List Exchange)
        (result : Result (Unit {0}) CalendarSyncFault)
        → SettlesSecond IsCalendarAnsweredOver xs → taken ++ untaken ≡ xs ++ more
        → CalendarSyncEnds (calendar_request_text host) empty_mirror t taken untaken result
        → IsSettled result }
{
    mirrors_hold_calendars();
    data_is_heard_in_bytes();
    answers_are_sound();
    one_meaning();
    one_judgement();
}

/// And when it ended well, its last exchange was answered over the first n releases of the primary.
/// The mirror then holds exactly the calendars of the last of them.
pub fn syncs_hold()
    ensures { (H : List ReleaseData) (steps : List WorldStep) (w : SyncWorld) (host : List ℕ)
        (t : MirrorState) (taken untaken : List Exchange)
        (result : Result (Unit {0}) CalendarSyncFault)
        → IsHistory IsSound H → 1 ≤ length H
        → Logs IsSound IsCalendarAnsweredOver MeansSound (world_begun H) steps taken w
        → CalendarSyncEnds (calendar_request_text host) empty_mirror t taken untaken result
        → result ≡ Ok tt → (n : ℕ) × HoldsAt w.history n taken t }
{
    mirrors_hold_calendars();
    data_is_heard_in_bytes();
    one_judgement();
}

/// A mirror that holds the calendars of a release keeps, for each of its zones, a text that reads
/// as the calendar of its name. What is printed of the text in a range are the observances of the
/// zone.
pub fn calendars_are_told()
    ensures { (G : List ReleaseData) (s : MirrorState) (tzid : List ℕ) (c : ContentData)
        → IsHistory IsSound G → HoldsCalendars s G → zone_at (zones_of G) tzid ≡ Some c
        → KeepsCalendarText s.files tzid c.file }
{
    calendars_fit();
    zone_is_read();
    zone_is_told();
}
