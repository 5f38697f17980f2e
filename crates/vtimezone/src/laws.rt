//! What the parts of a zone mean. Each law is the contract of a function with an empty body.
ghost use Rattle.std.specs.Prelude.{◌≡◌, ◌<◌, ℕ, List, length, ℤ, None, Some, Option, Ok, IfSome};
ghost use Rattle.std.specs.Prelude.{IsTrue, All};
ghost use Rattle.std.specs.List.{Contains, AllByRecursion};
ghost use Rattle.td_civil.specs.Bounds.{HasMeaning, IsWithinBounds};
ghost use Rattle.posix_footer.specs.Carried.{IsCarriedIfAny};
ghost use Rattle.tzif_reader.specs.Cut.{lists_of};
ghost use Rattle.zone_meaning.specs.Faults.{zone_fault};
ghost use Rattle.zone_meaning.specs.Names.{has_printable_names};
ghost use Rattle.zone_meaning.specs.State.{zone_state, footer_meant};
ghost use Rattle.recurrence.specs.InForce.{GivesState, IsInForce};
ghost use Rattle.recurrence.specs.Spellable.{IsSafe, IsSpellable};
ghost use Rattle.recurrence.specs.declared.part_types.Part.{Part};
ghost use Rattle.recurrence.specs.declared.part_types.Range.{Range};
ghost use Rattle.ical_lines.specs.Unfolding.{unfolded};
ghost use Rattle.td_civil.specs.declared.moment_type.Moment.{Moment};
ghost use Rattle.vtimezone.specs.CalendarText.{calendar, calendar_lines, IsLineText, IsReadable};
ghost use Rattle.vtimezone.specs.Ranges.{IsEndOf, IsAmong, end_in};
ghost use Rattle.vtimezone.specs.Spelled.{spelled};
ghost use Rattle.vtimezone.specs.ZoneParts.{range_parts};

/// At each moment of a range, the part in force has the offset, the flag and the name of the zone
/// file's state.
pub fn parts_mean()
    ensures { (file : List ℕ) (range : Range) → zone_fault file ≡ None
        → IsCarriedIfAny (footer_meant (lists_of file).footer)
        → HasMeaning range.from.seconds → IsEndOf range.from.seconds (end_in range)
        → (t : ℤ) → IsAmong range.from.seconds (end_in range) t
        → GivesState (range_parts file range) t (zone_state file t) }
{}

/// At most one part is in force.
pub fn one_in_force()
    ensures { (parts : List Part) (t : ℤ) (p q : Part)
        → IsInForce (Contains parts) t p → IsInForce (Contains parts) t q → p ≡ q }
{}

/// The text of a calendar is read as its lines (RFC 5545, section 3.1), if identifiers and names
/// have no line feed.
pub fn calendar_reads_back()
    ensures { (tzid : List ℕ) (alias_of : Option (List ℕ)) (parts : List Part)
        (until : Option Moment) → IsLineText tzid → IfSome alias_of IsLineText
        → AllByRecursion IsReadable parts
        → unfolded (calendar tzid alias_of parts until)
        ≡ Ok (calendar_lines tzid alias_of parts until) }
{}

/// The text of a calendar encodes its parameters. Cut into lines, components and values, and read
/// by the grammar of RFC 5545, it gives back identifiers, end and parts.
pub fn calendar_spells()
    ensures { (tzid : List ℕ) (alias_of : Option (List ℕ)) (parts : List Part)
        (until : Option Moment) → IsSafe tzid → IfSome alias_of IsSafe
        → IfSome until (λ m. IsWithinBounds m.seconds) → 0 < length parts → All IsSpellable parts
        → spelled (calendar tzid alias_of parts until) ≡ Some (record
        { tzid = tzid; alias_of = alias_of; until = until; parts = parts }) }
{}

/// So the calendar of a zone for a range encodes the parts of the zone, if its names can be
/// printed.
pub fn zone_calendar_spells()
    ensures { (file : List ℕ) (range : Range) (tzid : List ℕ) (alias_of : Option (List ℕ))
        → zone_fault file ≡ None → IsTrue (has_printable_names file)
        → IsCarriedIfAny (footer_meant (lists_of file).footer)
        → HasMeaning range.from.seconds → IsEndOf range.from.seconds (end_in range)
        → IsSafe tzid → IfSome alias_of IsSafe
        → spelled (calendar tzid alias_of (range_parts file range) range.until) ≡ Some (record {
          tzid = tzid;
          alias_of = alias_of;
          until = range.until;
          parts = range_parts file range;
        }) }
{}

/// A zone has at least one part in a range. If the names of the zone can be printed, the text of a
/// calendar can encode these parts and the end of the range.
pub fn zone_parts_are_spellable()
    ensures { (file : List ℕ) (range : Range) → zone_fault file ≡ None
        → IsTrue (has_printable_names file)
        → IsCarriedIfAny (footer_meant (lists_of file).footer)
        → HasMeaning range.from.seconds → IsEndOf range.from.seconds (end_in range)
        → (0 < length (range_parts file range)) × (All IsSpellable (range_parts file range)
        × IfSome range.until (λ m. IsWithinBounds m.seconds)) }
{}
