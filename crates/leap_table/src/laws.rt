//! Laws of tables of leap seconds. Each is the contract of a function with an empty body.
ghost use Rattle.std.specs.Prelude.{◌≡◌, ◌*ℤ◌, List, ℕ, pos, None, IsTrue};
ghost use Rattle.std.specs.List.{AllByRecursion};
ghost use Rattle.td_base.specs.Names.{IsPlain};
ghost use Rattle.td_civil.specs.Bounds.{IsWithinBounds};
ghost use Rattle.td_civil.specs.Reading.{is_date_text};
ghost use Rattle.catalogue.specs.declared.release.LeapStep.{LeapStep as Step};
ghost use Rattle.leap_table.specs.Steps.{step_pairs};
ghost use Rattle.tzif_reader.specs.LeapSteps.{leap_fault, leap_steps};
ghost use Rattle.tzif_reader.specs.declared.zone_file.LeapLine.{LeapLine as Line};

/// The day of each step of a table begins at a supported moment, from 1800 to before 9999.
#[tactic(auto, using(crate::proofs::Dated::dated_steps))]
pub fn steps_are_dated()
    ensures { (lines : List Line) (steps : List Step) → leap_fault lines ≡ None
        → step_pairs steps ≡ leap_steps lines
        → AllByRecursion (λ s. IsWithinBounds (s.day *ℤ pos 86400)) steps }
{}

/// A date is plain text.
#[tactic(auto, using(crate::proofs::Dated::date_is_plain))]
pub fn dates_are_plain()
    ensures { (text : List ℕ) → IsTrue (is_date_text text) → IsPlain text }
{}
