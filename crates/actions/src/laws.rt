//! What a third format leaves unchanged, and what both calendars encode. Each law is the contract
//! of a function with an empty body, or of one that only calls other laws.
ghost use Rattle.std.specs.Prelude.{◌≡◌, [], ◌∷◌, ℕ, List, IfSome, Some};
ghost use Rattle.td_base.specs.declared.report.Role.{Role as TheRole};
ghost use Rattle.catalogue.specs.Releases.{ContentData, ReleaseData};
ghost use Rattle.http_request.specs.declared.head.Head.{Head as TheHead};
ghost use Rattle.negotiate.specs.Choices.{IsUnnamed, calendar_format, file_format, formats};
ghost use Rattle.negotiate.specs.Choices.{json_format};
ghost use Rattle.zone_meaning.specs.Sound.{IsSoundFile};
ghost use Rattle.jcal.specs.Reading.{spelled as spelled_as_json};
ghost use Rattle.jcal.specs.Tree.{tree};
ghost use Rattle.vtimezone.specs.Spelled.{spelled as spelled_in_lines};
ghost use Rattle.vtimezone.specs.ZoneParts.{range_parts};
ghost use Rattle.actions.specs.Action.{action};
ghost use Rattle.actions.specs.Bounds.{AreBounds, end_if_any, range_between};
ghost use Rattle.actions.specs.Formats.{AreTexts, alias_of, calendar_text, zone_spelling};
ghost use Rattle.actions.specs.Offering.{action_among};
ghost use Rattle.actions.specs.declared.bounds.Bounds.{Bounds as TheBounds};

/// Each answer is that of a server that offers all formats. Without an Accept field, or if no
/// element of it names calendars as JSON, it is that of a server without this format. The
/// capabilities list the format in any case.
pub fn unnamed_format_changes_no_answer()
    ensures all { (H : List ReleaseData) (role : TheRole) (head : TheHead)
        → action H role head ≡ action_among formats H role head }
    ensures unnamed { (H : List ReleaseData) (role : TheRole) (head : TheHead)
        → IfSome head.accept (λ field. IsUnnamed field json_format)
        → action H role head ≡ action_among (calendar_format ∷ file_format ∷ []) H role head }
{}

/// The calendar of a zone between two bounds encodes the same as its calendar as JSON, whose text
/// is that of this tree. It encodes the requested name, the identifier of the zone if that name is
/// an alias, the end, and the parts. The parts mean the zone (`parts_mean` of `vtimezone`).
pub fn calendars_spell_the_zone()
    ensures lines { (name : List ℕ) (c : ContentData) (bounds : TheBounds) → IsSoundFile c.file
        → AreTexts name c.tzid → AreBounds bounds
        → spelled_in_lines (calendar_text name c bounds) ≡ Some (zone_spelling name c bounds) }
    ensures json { (name : List ℕ) (c : ContentData) (bounds : TheBounds) → IsSoundFile c.file
        → AreTexts name c.tzid → AreBounds bounds
        → spelled_as_json (tree name (alias_of name c.tzid)
        (range_parts c.file (range_between bounds)) (end_if_any bounds.end))
        ≡ Some (zone_spelling name c bounds) }
{
    vtimezone::zone_calendar_spells();
    vtimezone::zone_parts_are_spellable();
    jcal::calendar_spells();
}
