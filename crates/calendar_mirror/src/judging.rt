ghost use Rattle.std.specs.Prelude.{◌≡◌, ◌≢◌, IfOk, OnOk};
ghost use Rattle.vtimezone_reader.specs.declared.calendar_fault.CalendarFault.TheVariants as bad;
ghost use Rattle.calendar_mirror.specs.Judging as judging;
ghost use Rattle.calendar_mirror.specs.declared.judged_type.Judged.TheVariants as judged;

use crate::Judged;
use mirror::{Understood, understand};
use std::alloc::Global;
use sync_core::Heard;
use td_base::{Ask, Bytes, NoMemory};
use vtimezone_reader::{CalendarFault, read};

/// Decodes the bytes of an answer, for what was requested.
pub fn judge(alloc: Global, ask: &Ask, answer: &[u8]) -> Result<Judged, NoMemory>
    ensures { IfOk result (judging.IsJudged ask.now answer.now) }
{
    match understand(alloc, ask, answer)? {
        Understood::Hears(heard) => judge_heard(alloc, ask, heard),
        Understood::Unreadable(place) => Ok(Judged::Sound(Understood::Unreadable(place))),
        Understood::Refuses(status) => Ok(Judged::Sound(Understood::Refuses(status))),
    }
}

/// Judges a decoded answer: the data of a zone are checked as a calendar.
fn judge_heard(alloc: Global, ask: &Ask, heard: Heard) -> Result<Judged, NoMemory>
    ensures { IfOk result (λ j. j ≡ judging.judged_heard ask.now heard) }
{
    match ask {
        Ask::Get(name) => judge_data(alloc, name.as_slice(), heard),
        Ask::List(_) => Ok(Judged::Sound(Understood::Hears(heard))),
    }
}

/// Judges a decoded answer to the request for the zone with this name.
fn judge_data(alloc: Global, name: &[u8], heard: Heard) -> Result<Judged, NoMemory>
    ensures { IfOk result (λ j. j ≡ judging.judged_data name.now heard) }
{
    match heard {
        Heard::Zone(text) => judge_text(alloc, name, text),
        Heard::List(doc) => Ok(Judged::Sound(Understood::Hears(Heard::List(doc)))),
        Heard::BadToken => Ok(Judged::Sound(Understood::Hears(Heard::BadToken))),
    }
}

/// Judges the text that was received for the zone with this name.
fn judge_text(alloc: Global, name: &[u8], text: Bytes) -> Result<Judged, NoMemory>
    ensures { IfOk result (λ j. j ≡ judging.judged_text name.now text) }
{
    match read(alloc, text.as_slice()) {
        Ok(calendar) => {
            if calendar.tzid.as_slice() != name {
                return Ok(Judged::WrongName);
            }
            Ok(Judged::Sound(Understood::Hears(Heard::Zone(text))))
        }
        Err(fault) => bad_calendar(fault),
    }
}

/// The result for a text that is not a calendar.
fn bad_calendar(fault: CalendarFault) -> Result<Judged, NoMemory>
    ensures judged { IfOk result (λ j. j ≡ judged.BadCalendar fault) }
    ensures memory { OnOk result (fault ≢ bad.NoMemory) }
{
    if fault == CalendarFault::NoMemory {
        return Err(NoMemory);
    }
    Ok(Judged::BadCalendar(fault))
}
