//! Admission rules: what a release changes, and whether chosen rules allow it.
//!
//! [`delta_of`] gives what a release changes compared with the one before it, which is `difference`
//! of `specs/Differences.antt`. [`ask`] gives the first of some chosen rules that refuses it. The
//! tests of rules are kept as closures: a [`Kept`] test returns true exactly where `allows` of
//! `specs/Rules.antt` does, and its maker must prove that. [`Rules`] holds chosen rules together
//! with the tests of their kinds.
//!
//! Differences of zones come from `zone_meaning`, the last release from `catalogue`. `installer`
//! applies the rules before it publishes a release, and `subscribers` reports the changes.
#![tactic(auto)]

// What a release changes.
mod delta;
mod differing;

// The rules: their kinds, what each allows, their tests, and their decision on a release.
mod allowing;
mod asking;
mod chosen_rules;
mod kept;
mod rules;

// What may cross threads.
mod send_sync;

pub use allowing::{changes_at_most, changes_no_past};
pub use asking::ask;
pub use chosen_rules::Rules;
pub use delta::{Changed, Delta};
pub use differing::delta_of;
pub use kept::{Kept, Test};
pub use rules::{Chosen, RuleKind};
