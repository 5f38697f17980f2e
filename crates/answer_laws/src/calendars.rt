//! The law of answers with a calendar, as the contract of a function that only calls laws.
ghost use Rattle.std.specs.Prelude.{◌≡◌, List, Some};
ghost use Rattle.td_base.specs.declared.report.Role.{Role};
ghost use Rattle.catalogue.specs.Histories.{IsHistory};
ghost use Rattle.catalogue.specs.Releases.{ReleaseData};
ghost use Rattle.http_answer.specs.declared.answer.Kind.TheVariants.{Calendar, CalendarJson};
ghost use Rattle.http_request.specs.declared.head.Head.{Head};
ghost use Rattle.vtimezone.specs.Spelled.{spelled};
ghost use Rattle.zone_meaning.specs.Sound.{IsSound};
ghost use Rattle.actions.specs.Action.{action};
ghost use Rattle.answer_laws.specs.Calendars.{IsCalendarOf, spelled_as_json};

use actions::calendars_spell_the_zone;
use format_laws::calendars_read_back;
use vtimezone::{parts_mean, zone_parts_are_spellable};

/// Each answer with a calendar in lines (RFC 5545) or as JSON (RFC 7265) reads as the calendar of a
/// zone. The zone is the one of the last release that has the name in the request. The calendar
/// begins and ends as the request says. At each moment between, the part in force has the offset,
/// the flag and the name that the zone's file gives.
pub fn calendars_tell_their_zone()
    ensures lines { (H : List ReleaseData) (role : Role) (head : Head) → IsHistory IsSound H
        → (action H role head).kind ≡ Some Calendar
        → IsCalendarOf spelled H head (action H role head) }
    ensures json { (H : List ReleaseData) (role : Role) (head : Head) → IsHistory IsSound H
        → (action H role head).kind ≡ Some CalendarJson
        → IsCalendarOf spelled_as_json H head (action H role head) }
{
    calendars_spell_the_zone();
    calendars_read_back();
    parts_mean();
    zone_parts_are_spellable();
}
