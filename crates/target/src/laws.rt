//! Theorems about targets, each the contract of a function with an empty body.
ghost use Rattle.std.specs.Prelude.{◌≡◌, ℕ, List, IsTrue};
ghost use Rattle.percent_encoding.specs.declared.ascii_set.AsciiSet.{AsciiSet};
ghost use Rattle.target.specs.Actions.{asks};
ghost use Rattle.target.specs.Names.{zone_target, has_marks, IsUtf8Name};
ghost use Rattle.target.specs.declared.asked_types.Param.TheVariants.{Absent};
ghost use Rattle.target.specs.declared.asked_types.Asked.TheVariants.{Get};

/// Any zone name leads to its zone, if at least `%`, `/` and `?` are percent-encoded in the target.
pub fn asks_by_name()
    ensures { (set : AsciiSet) (tzid : List ℕ) → IsTrue (has_marks set) → IsUtf8Name tzid
        → asks (zone_target set tzid) ≡ Get tzid Absent Absent }
{}
