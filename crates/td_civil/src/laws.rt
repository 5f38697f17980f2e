//! Theorems about years, states and the texts of moments, each the contract of a function with an
//! empty body.
ghost use Rattle.std.specs.Prelude.{◌≡◌, ◌↔◌, ◌+ℤ◌, ◌*ℤ◌, ◌≤ℤ◌, ◌<ℤ◌, ℕ, List, ℤ, pos, Some, true};
ghost use Rattle.std.specs.Prelude.{codes};
ghost use Rattle.jiff_core.specs.Calendar.{IsYear, days_from_civil};
ghost use Rattle.td_civil.specs.Bounds.{HasText};
ghost use Rattle.td_civil.specs.Calendar.{IsInYear, text_of};
ghost use Rattle.td_civil.specs.Reading.{moment_in};
ghost use Rattle.td_civil.specs.SameLocal.{same_local};
ghost use Rattle.td_civil.specs.Stamp.{Spells};
ghost use Rattle.td_civil.specs.declared.local_time.Local.{Local};

use crate::{HI, LO};

/// The two bounds, as texts.
pub fn bounds_are()
    ensures lo { Spells (codes "1800-01-01T00:00:00Z") LO }
    ensures hi { Spells (codes "9999-01-01T00:00:00Z") HI }
{}

/// A moment has one text.
pub fn one_text()
    ensures { (a b : List ℕ) (m : ℤ) → Spells a m → Spells b m → a ≡ b }
{}

/// A text has only one moment.
pub fn one_moment()
    ensures { (text : List ℕ) (m n : ℤ) → Spells text m → Spells text n → m ≡ n }
{}

/// `Spells` holds for the moments of the years 0 to 9999, each with its text.
pub fn is_text_of()
    ensures { (text : List ℕ) (m : ℤ) → Spells text m ↔ (HasText m × (text ≡ text_of m)) }
{}

/// A moment is read from a text exactly when `Spells` ties the text to the moment.
pub fn is_spelled()
    ensures { (text : List ℕ) (m : ℤ) → (moment_in text ≡ Some m) ↔ Spells text m }
{}

/// The text of a moment is read as that moment.
pub fn reads_back()
    ensures spells { (m : ℤ) → HasText m → Spells (text_of m) m }
    ensures reads { (m : ℤ) → HasText m → moment_in (text_of m) ≡ Some m }
{}

/// The test of equal states passes exactly when they are equal.
pub fn same_states()
    ensures { (x y : Local) → (same_local x y ≡ true) ↔ (x ≡ y) }
{}

/// The moments of an earlier year are before those of a later one.
pub fn years_apart()
    ensures { (year later m n : ℤ) → IsYear year → IsYear later → IsInYear year m → IsInYear later n
        → year <ℤ later → m <ℤ n }
{}

/// A moment within a run of consecutive years lies in one of them.
pub fn some_year()
    ensures { (count : ℕ) (first t : ℤ)
        → (days_from_civil first 1 1 *ℤ pos 86400) ≤ℤ t
        → t <ℤ (days_from_civil (first +ℤ pos count) 1 1 *ℤ pos 86400)
        → (year : ℤ) × ((first ≤ℤ year) × (year <ℤ (first +ℤ pos count)) × IsInYear year t) }
{}
