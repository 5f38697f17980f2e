//! Theorems about TZ strings and their onsets, each the contract of a function with an empty body.
ghost use Rattle.std.specs.Prelude.{◌≡◌, ◌≤◌, ◌<◌, ◌+◌, ◌*◌, ◌≤ℤ◌, ◌<ℤ◌, ◌+ℤ◌, ℕ, List, ℤ, pos};
ghost use Rattle.std.specs.Prelude.{min, Ok, Option};
ghost use Rattle.jiff_core.specs.Calendar.{IsYear, days_from_civil, days_in_month};
ghost use Rattle.td_civil.specs.Bounds.{HasMeaning};
ghost use Rattle.td_civil.specs.Calendar.{IsInYear};
ghost use Rattle.posix_footer.specs.declared.rule_types.DayForm.{DayForm};
ghost use Rattle.posix_footer.specs.declared.rule_types.DstRule.{DstRule};
ghost use Rattle.posix_footer.specs.declared.rule_types.Edge.{Edge};
ghost use Rattle.posix_footer.specs.declared.rule_types.Footer.{Footer};
ghost use Rattle.posix_footer.specs.Grammar.{footer_in};
ghost use Rattle.posix_footer.specs.Lawful.{IsLawful, IsLawfulDay, IsLawfulRule};
ghost use Rattle.posix_footer.specs.NextOnset.{ComesAfter, IsNext, IsQuietIfAny};
ghost use Rattle.posix_footer.specs.Onset.{month_day, onset_of, weekday_from_sunday, IsDayNamed};
ghost use Rattle.posix_footer.specs.StateAt.{state_of};
ghost use Rattle.td_civil.specs.declared.moment_type.Moment.{Moment};

/// The footer of a text is within the ranges of its fields.
pub fn footer_is_lawful()
    ensures { (text : List ℕ) (footer : Footer) → footer_in text ≡ Ok footer → IsLawful footer }
{}

/// The onset of an edge is later in a later year.
pub fn onsets_rise()
    ensures { (rule : DstRule) (std year later : ℤ) (edge : Edge) → IsLawfulRule std rule
        → IsYear year → IsYear later → year <ℤ later
        → onset_of rule std year edge <ℤ onset_of rule std later edge }
{}

/// The onsets of a year two or more before a moment's year are not after the moment. Those of a
/// year two or more after it are after the moment.
pub fn far_years_are_quiet()
    ensures before { (rule : DstRule) (std year other t : ℤ) (edge : Edge) → IsLawfulRule std rule
        → IsYear year → IsYear other → IsInYear year t → (other +ℤ pos 2) ≤ℤ year
        → onset_of rule std other edge ≤ℤ t }
    ensures after { (rule : DstRule) (std year other t : ℤ) (edge : Edge) → IsLawfulRule std rule
        → IsYear year → IsYear other → IsInYear year t → (year +ℤ pos 2) ≤ℤ other
        → t <ℤ onset_of rule std other edge }
{}

/// The day of `Mm.w.d` has its weekday, and is the last such day of the first w weeks of its month.
pub fn day_of_week_form()
    ensures weekday { (year : ℤ) (month week weekday : ℕ) → 1 ≤ week → weekday ≤ 6
        → weekday_from_sunday (days_from_civil year month (month_day year month week weekday))
        ≡ weekday }
    ensures within { (year : ℤ) (month week weekday : ℕ) → 1 ≤ week → weekday ≤ 6
        → month_day year month week weekday ≤ min (7 * week) (days_in_month year month) }
    ensures last { (year : ℤ) (month week weekday : ℕ) → 1 ≤ week → weekday ≤ 6
        → min (7 * week) (days_in_month year month) < month_day year month week weekday + 7 }
{}

/// The day of a form is one of the days that the form can name.
pub fn day_is_named()
    ensures { (form : DayForm) (year : ℤ) → IsLawfulDay form → IsDayNamed form year }
{}

/// The state that a footer gives stays the same until the next onset.
pub fn state_stays()
    ensures quiet { (footer : Footer) (t u : ℤ) → t ≤ℤ u
        → IsQuietIfAny footer.dst footer.std.offset t u → state_of footer t ≡ state_of footer u }
    ensures until_next { (footer : Footer) (t u : ℤ) (next : Option Moment) → t ≤ℤ u
        → IsNext footer.dst footer.std.offset t next → ComesAfter next u
        → state_of footer t ≡ state_of footer u }
{}

/// The calendar repeats every 400 years, and so do the onsets of a rule and the state of a footer.
pub fn states_repeat()
    ensures onsets { (rule : DstRule) (std : ℤ) (edge : Edge) (year : ℕ)
        → onset_of rule std (pos (year + 400)) edge
        ≡ onset_of rule std (pos year) edge +ℤ pos 12_622_780_800 }
    ensures states { (footer : Footer) (t later : ℤ) → IsLawful footer
        → later ≡ t +ℤ pos 12_622_780_800 → HasMeaning t → HasMeaning later
        → state_of footer later ≡ state_of footer t }
{}
