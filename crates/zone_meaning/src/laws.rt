//! Laws of states and of the observances of a range. Each is the contract of a function with an
//! empty body.
ghost use Rattle.std.specs.Prelude.{◌≡◌, ◌≤ℤ◌, ◌<ℤ◌, List, ℕ, ℤ, true, None};
ghost use Rattle.std.specs.List.{Contains};
ghost use Rattle.td_civil.specs.declared.local_time.Local.{Local};
ghost use Rattle.td_civil.specs.declared.local_time.Observance.{Observance};
ghost use Rattle.zone_meaning.specs.Faults.{zone_fault};
ghost use Rattle.zone_meaning.specs.Names.{has_printable_names, is_printable_name};
ghost use Rattle.zone_meaning.specs.Observed.{observed};
ghost use Rattle.zone_meaning.specs.RangeLaws.{AreObserved, IsLastBy, state_told};
ghost use Rattle.zone_meaning.specs.State.{zone_state};

/// The observances of a range are the state at its beginning and then, in rising order, each change
/// of the state before the end. No other list is.
pub fn observances_are_the_changes()
    ensures are { (state : ℤ → Local) (a b : ℤ) → a <ℤ b
        → AreObserved state a b (observed state a b) }
    ensures one { (state : ℤ → Local) (a b : ℤ) (list : List Observance) → a <ℤ b
        → AreObserved state a b list → list ≡ observed state a b }
{}

/// The last observance that is not after a moment of the range gives the state at that moment. One
/// always exists.
pub fn last_observance_tells_the_state()
    ensures some { (state : ℤ → Local) (a b t : ℤ) → a ≤ℤ t → t <ℤ b
        → (o : Observance) × IsLastBy (observed state a b) t o }
    ensures tells { (state : ℤ → Local) (a b t : ℤ) (o : Observance) → a ≤ℤ t → t <ℤ b
        → IsLastBy (observed state a b) t o → state_told o ≡ state t }
{}

/// If the names of a zone's types and footer can be printed, so can those of its states and of its
/// observances.
pub fn names_are_printable()
    ensures states { (file : List ℕ) (t : ℤ) → zone_fault file ≡ None
        → has_printable_names file ≡ true → is_printable_name (zone_state file t).name ≡ true }
    ensures observances { (file : List ℕ) (a b : ℤ) (o : Observance) → zone_fault file ≡ None
        → has_printable_names file ≡ true → a <ℤ b → Contains (observed (zone_state file) a b) o
        → is_printable_name o.name ≡ true }
{}
