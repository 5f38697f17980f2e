//! Laws of documents as JSON. Each is the contract of a function with an empty body, or of one that
//! only calls other laws.
ghost use Rattle.std.specs.Prelude.{◌≡◌, ◌<◌, ℕ, Bool, List, length, Some, Option, IfSome, All};
ghost use Rattle.std.specs.Prelude.{option_and_then};
ghost use Rattle.serde_json.specs.Read.{read};
ghost use Rattle.td_base.specs.declared.report.Role.{Role};
ghost use Rattle.td_civil.specs.Bounds.{IsWithinBounds};
ghost use Rattle.td_civil.specs.declared.moment_type.Moment.{Moment};
ghost use Rattle.recurrence.specs.Spellable.{IsSafe, IsSpellable};
ghost use Rattle.recurrence.specs.declared.part_types.Part.{Part};
ghost use Rattle.jcal.specs.Reading.{spelled};
ghost use Rattle.jcal.specs.Tree.{calendar, tree};
ghost use Rattle.json_forms.specs.CapabilitiesDocument.{capabilities_data};
ghost use Rattle.json_forms.specs.CapabilitiesDocument.{capabilities_document};

use jcal::calendar_spells;

/// The text of a calendar as JSON is read as its tree, for every calendar that can be written.
/// Reading the text, and then the tree property by property, gives back identifiers, end and parts.
pub fn calendars_read_back()
    ensures tree { (tzid : List ℕ) (alias_of : Option (List ℕ)) (parts : List Part)
        (until : Option Moment) → All IsSpellable parts
        → read (calendar tzid alias_of parts until) ≡ Some (tree tzid alias_of parts until) }
    ensures spells { (tzid : List ℕ) (alias_of : Option (List ℕ)) (parts : List Part)
        (until : Option Moment) → IsSafe tzid → IfSome alias_of IsSafe
        → IfSome until (λ m. IsWithinBounds m.seconds) → 0 < length parts → All IsSpellable parts
        → option_and_then spelled (read (calendar tzid alias_of parts until)) ≡ Some (record
        { tzid = tzid; alias_of = alias_of; until = until; parts = parts }) }
{
    calendar_spells();
}

/// The text of the capabilities of a server is read as its tree, for every role of the server.
pub fn capabilities_read_back()
    ensures { (role : Role) (publisher : List ℕ) (with_leaps : Bool)
        → read (capabilities_document role publisher with_leaps)
        ≡ Some (capabilities_data role publisher with_leaps) }
{}
