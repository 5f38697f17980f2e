//! Laws of footers that rules can say, and of their rules. Each is the contract of a function with
//! an empty body.
ghost use Rattle.std.specs.Prelude.{◌≡◌, ◌⊎◌, ◌↔◌, ℤ, true, Some};
ghost use Rattle.jiff_core.specs.Calendar.{IsYear};
ghost use Rattle.td_civil.specs.Bounds.{HasMeaning};
ghost use Rattle.td_civil.specs.Calendar.{IsInYear};
ghost use Rattle.td_civil.specs.declared.local_time.Local.{Local};
ghost use Rattle.posix_footer.specs.Carried.{is_carried_rule, is_all_year, is_steady, are_apart};
ghost use Rattle.posix_footer.specs.Lawful.{IsLawfulDate, IsLawfulRule};
ghost use Rattle.posix_footer.specs.Onset.{onset_of};
ghost use Rattle.posix_footer.specs.StateAt.{state_by};
ghost use Rattle.posix_footer.specs.declared.rule_types.Date.{Date};
ghost use Rattle.posix_footer.specs.declared.rule_types.DstRule.{DstRule};
ghost use Rattle.posix_footer.specs.declared.rule_types.Edge.{Edge};
ghost use Rattle.posix_footer.specs.declared.rule_types.Edge.TheVariants as edge;
ghost use Rattle.recurrence.specs.Falls.{Falls, IsOfYear};
ghost use Rattle.recurrence.specs.Occurs.{AreRulesOf, AreInOrder};
ghost use Rattle.recurrence.specs.RuleOfDate.{rule_of};
ghost use Rattle.recurrence.specs.SameDates.{HasSameDates, AreApart};
ghost use Rattle.recurrence.specs.Valid.{IsValidForm};
ghost use Rattle.recurrence.specs.declared.rule_types.Form.{Form};

/// A form falls on at most one day of a year.
pub fn falls_once()
    ensures { (form : Form) (y a b : ℤ) → IsYear y → IsValidForm form
        → IsOfYear y a → IsOfYear y b → Falls form a → Falls form b → a ≡ b }
{}

/// What the test of a date means. Its days have one month and day in every year, before and after
/// its time moves them. They are moved to days from 3 January to 29 December.
pub fn steady_dates_are()
    ensures { (d : Date) → IsLawfulDate d → (is_steady d ≡ true) ↔ HasSameDates d }
{}

/// What the test of two dates means. In every year, the days of one begin at least three days after
/// the days of the other end.
pub fn apart_in_each_year()
    ensures { (a b : Date) → IsLawfulDate a → IsLawfulDate b
        → is_steady a ≡ true → is_steady b ≡ true
        → (are_apart a b ≡ true) ↔ ((y : ℤ) → IsYear y → AreApart a b y) }
{}

/// The rules of a footer's dates fall on one day of each year, and on that day at the moment of the
/// footer's change.
pub fn keeps_onsets()
    ensures { (rule : DstRule) (std : ℤ) → IsLawfulRule std rule → is_carried_rule rule ≡ true
        → AreRulesOf std rule (rule_of rule.start) (rule_of rule.end) }
{}

/// Both changes of a year lie in that year in UTC.
pub fn onset_in_year()
    ensures { (rule : DstRule) (std y : ℤ) (at : Edge) → IsLawfulRule std rule → IsYear y
        → is_carried_rule rule ≡ true → IsInYear y (onset_of rule std y at) }
{}

/// The two changes of a year come in the same order in every year.
pub fn onsets_ordered()
    ensures { (rule : DstRule) (std : ℤ) → IsLawfulRule std rule → is_carried_rule rule ≡ true
        → AreInOrder rule std edge.Start edge.End ⊎ AreInOrder rule std edge.End edge.Start }
{}

/// If daylight saving time lasts from 1 January to 31 December, it is always in force.
pub fn all_year_daylight()
    ensures { (std : Local) (rule : DstRule) (t : ℤ) → IsLawfulRule std.offset rule
        → is_all_year std.offset rule ≡ true → HasMeaning t
        → state_by std (Some rule) t ≡ rule.dst }
{}
