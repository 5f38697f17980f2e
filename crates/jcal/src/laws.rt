//! What the calendar of a zone encodes. The law is the contract of a function with an empty body.
ghost use Rattle.std.specs.Prelude.{◌≡◌, ◌<◌, ℕ, List, length, Some, Option, IfSome, All};
ghost use Rattle.td_civil.specs.Bounds.{IsWithinBounds};
ghost use Rattle.td_civil.specs.declared.moment_type.Moment.{Moment};
ghost use Rattle.recurrence.specs.Spellable.{IsSafe, IsSpellable};
ghost use Rattle.recurrence.specs.declared.part_types.Part.{Part};
ghost use Rattle.jcal.specs.Reading.{spelled};
ghost use Rattle.jcal.specs.Tree.{tree};

/// The calendar encodes its parameters: read property by property, it gives back identifiers, end
/// and parts.
pub fn calendar_spells()
    ensures { (tzid : List ℕ) (alias_of : Option (List ℕ)) (parts : List Part)
        (until : Option Moment) → IsSafe tzid → IfSome alias_of IsSafe
        → IfSome until (λ m. IsWithinBounds m.seconds) → 0 < length parts → All IsSpellable parts
        → spelled (tree tzid alias_of parts until) ≡ Some (record
        { tzid = tzid; alias_of = alias_of; until = until; parts = parts }) }
{}
