//! Laws. Each is the contract of a function with an empty body.
ghost use Rattle.std.specs.Prelude.{◌≡◌, ℕ, List};
ghost use Rattle.td_base.specs.declared.report.Ask.{Ask};
ghost use Rattle.mirror.specs.Understanding.{Means};
ghost use Rattle.mirror.specs.declared.understood_type.Understood.{Understood};

/// An answer has only one meaning, so each fault of a sync is exact.
pub fn one_meaning()
    ensures { (a : Ask) (answer : List ℕ) (u v : Understood)
        → Means a answer u → Means a answer v → u ≡ v }
{}
