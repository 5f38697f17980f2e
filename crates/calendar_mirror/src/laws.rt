//! Laws, each the contract of a function that does nothing.
ghost use Rattle.std.specs.Prelude.{◌≡◌, ℕ, List};
ghost use Rattle.td_base.specs.declared.report.Ask.{Ask};
ghost use Rattle.calendar_mirror.specs.Judging.{IsJudged};
ghost use Rattle.calendar_mirror.specs.declared.judged_type.Judged.{Judged};

/// An answer has at most one judgement, so that each fault of a sync is exact.
pub fn one_judgement()
    ensures { (a : Ask) (answer : List ℕ) (j k : Judged)
        → IsJudged a answer j → IsJudged a answer k → j ≡ k }
{}
