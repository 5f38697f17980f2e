//! The law of the parts of a calendar, as the contract of a function that does nothing.
ghost use Rattle.std.specs.Prelude.{◌≡◌, List, ℕ, Ok};
ghost use Rattle.vtimezone_reader.specs.ReadLines.{calendar_in};
ghost use Rattle.vtimezone_reader.specs.declared.calendar_type.Calendar.{Calendar};
ghost use Rattle.reader_laws.specs.Texts.{HasParts};

/// Each part of a calendar that was read comes from lines of its text between a BEGIN and an END.
/// It has the first of their names that has at most 32 visible bytes, and all their dates.
pub fn calendars_have_their_parts()
    ensures { (text : List ℕ) (c : Calendar) → calendar_in text ≡ Ok c → HasParts text c }
{}
