//! The observances of a range, with each field written out. The law is the contract of a function
//! that only calls another law.
ghost use Rattle.std.specs.Prelude.{◌≡◌, ◌<ℤ◌, List, ℤ};
ghost use Rattle.td_civil.specs.declared.local_time.Local.{Local};
ghost use Rattle.td_civil.specs.declared.local_time.Observance.{Observance};
ghost use Rattle.zone_meaning.specs.Observed.{observed};
ghost use Rattle.release_laws.specs.States.{AreOfStates};

use zone_meaning::observances_are_the_changes;

/// The observances of a range are those of the states of local time, with each field written out.
/// The offset before a change is the one a second before it. No other list is.
pub fn observances_are_of_states()
    ensures are { (state : ℤ → Local) (a b : ℤ) → a <ℤ b
        → AreOfStates state a b (observed state a b) }
    ensures one { (state : ℤ → Local) (a b : ℤ) (list : List Observance) → a <ℤ b
        → AreOfStates state a b list → list ≡ observed state a b }
{
    observances_are_the_changes();
}
