//! Laws of onsets and states, each the contract of a function that does nothing.
ghost use Rattle.std.specs.Prelude.{◌≡◌, ◌↔◌, ℕ, List, ℤ, true};
ghost use Rattle.recurrence.specs.declared.part_types.Part.{Part};
ghost use Rattle.vtimezone_reader.specs.Onsets.{calendar_state, has_onset};
ghost use Rattle.reader_laws.specs.Latest.{IsLatestOnset, IsOnsetOf};

/// The onsets of a part are its start, its dates, and the moments of its rule. The rule counts from
/// the start to its last moment, which is an onset itself.
pub fn onsets_are_those_of_parts()
    ensures { (p : Part) (t : ℤ) → (has_onset p t ≡ true) ↔ IsOnsetOf p t }
{}

/// The part with the greatest onset that is not after a moment gives the state at that moment.
/// Where several parts have that onset, it is the last of them.
pub fn the_latest_part_gives_the_state()
    ensures { (parts : List Part) (t m : ℤ) (place : ℕ) (p : Part) → IsLatestOnset parts t place p m
        → calendar_state parts t ≡ record { offset = p.to; dst = p.dst; name = p.name } }
{}
