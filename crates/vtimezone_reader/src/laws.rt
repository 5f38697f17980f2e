//! Laws of calendars. Each is the contract of a function with an empty body, or of one that only
//! calls other laws.
ghost use Rattle.std.specs.Prelude.{◌≡◌, ◌<◌, ◌≤◌, ℕ, List, Option, None, Ok, IfSome, IfOk, length};
ghost use Rattle.std.specs.Prelude.{true, ℤ, ◌≤ℤ◌, ◌<ℤ◌};
ghost use Rattle.std.specs.List.{AllByRecursion};
ghost use Rattle.td_base.specs.Names.{is_identifier};
ghost use Rattle.td_civil.specs.Bounds.{HasMeaning, IsWithinBounds};
ghost use Rattle.td_civil.specs.declared.moment_type.Moment.{Moment};
ghost use Rattle.recurrence.specs.declared.part_types.Part.{Part};
ghost use Rattle.zone_meaning.specs.Observed.{observed};
ghost use Rattle.zone_meaning.specs.Sound.{IsSoundFile};
ghost use Rattle.zone_meaning.specs.State.{zone_state};
ghost use Rattle.vtimezone.specs.CalendarText.{calendar};
ghost use Rattle.vtimezone_reader.specs.Observing.{calendar_observed};
ghost use Rattle.vtimezone_reader.specs.ReadLines.{calendar_in};
ghost use Rattle.vtimezone_reader.specs.Sound.{IsSoundCalendar};
ghost use Rattle.vtimezone_reader.specs.Written.{IsWrittenPart, parts_after, written_calendar};

use crate::MOST_BYTES;
use td_civil::HI;

/// A calendar that was read is sound.
pub fn read_is_sound()
    ensures { (text : List ℕ) → IfOk (calendar_in text) IsSoundCalendar }
{}

/// A calendar that was written is read back.
pub fn reads_back()
    ensures { (tzid : List ℕ) (alias_of : Option (List ℕ)) (parts : List Part)
        (until : Option Moment) → is_identifier tzid ≡ true
        → IfSome alias_of (λ t. is_identifier t ≡ true)
        → 0 < length parts → AllByRecursion IsWrittenPart parts
        → IfSome until (λ m. IsWithinBounds m.seconds)
        → length (calendar tzid alias_of parts until) ≤ MOST_BYTES
        → calendar_in (calendar tzid alias_of parts until)
        ≡ Ok (written_calendar tzid alias_of parts until) }
{
    vtimezone::calendar_reads_back();
}

/// The calendar of a sound zone from a moment on, without an end, is read back.
pub fn zone_is_read()
    ensures { (file : List ℕ) (from : Moment) (tzid : List ℕ) (alias_of : Option (List ℕ))
        → IsSoundFile file → HasMeaning from.seconds → is_identifier tzid ≡ true
        → IfSome alias_of (λ t. is_identifier t ≡ true)
        → length (calendar tzid alias_of (parts_after file from) None) ≤ MOST_BYTES
        → calendar_in (calendar tzid alias_of (parts_after file from) None)
        ≡ Ok (written_calendar tzid alias_of (parts_after file from) None) }
{
    vtimezone::calendar_reads_back();
    vtimezone::zone_parts_are_spellable();
}

/// And it gives the observances of the zone in each later range.
pub fn zone_is_told()
    ensures { (file : List ℕ) (from : Moment) (a b : ℤ) → IsSoundFile file
        → HasMeaning from.seconds → from.seconds ≤ℤ a → a <ℤ b → b ≤ℤ HI
        → calendar_observed (parts_after file from) a b
        ≡ observed (zone_state file) a b }
{
    recurrence::keeps_onsets();
    vtimezone::parts_mean();
    vtimezone::zone_parts_are_spellable();
}
