//! The moments of the parameters `start` and `end`.
ghost use Rattle.std.specs.Prelude.{◌≡◌, ◌≤ℤ◌, ◌<ℤ◌, IfSome, IsTrue};
ghost use Rattle.td_civil.specs.Bounds.{HasMeaning};
ghost use Rattle.vtimezone.specs.Ranges.{seconds_if_any};
ghost use Rattle.actions.specs.Moments as moments;

use target::Param;
use td_civil::{HI, Moment, moment_of};

/// The moment of a parameter that is given once, if its text is that of a moment.
fn moment_given(parameter: &Param) -> Option<Moment>
    ensures { seconds_if_any result ≡ moments.moment_given parameter.now }
{
    match parameter {
        Param::Once(text) => moment_of(text.as_slice()).ok(),
        Param::Absent => None,
        Param::Repeated => None,
    }
}

/// Whether a moment may end a range with this start.
fn is_end(start: Moment, m: Moment) -> bool
    ensures test { result ≡ moments.is_end start.seconds m.seconds }
    ensures range { IsTrue result → (start.seconds <ℤ m.seconds) × (m.seconds ≤ℤ HI) }
{
    start.seconds < m.seconds && m.seconds <= HI
}

/// The start of the range that a request gives. None if it is not given once, or not a supported
/// moment.
#[tactic(auto, unfolding(crate::specs::Moments::start_of))]
pub fn start_of(parameter: &Param) -> Option<Moment>
    ensures start { seconds_if_any result ≡ moments.start_of parameter.now }
    ensures meaning { IfSome result (λ m. HasMeaning m.seconds) }
{
    moment_given(parameter).filter(|m| m.has_meaning())
}

/// The end of the range that a request gives, after a known start. None if it is not given once, is
/// not after the start, or is beyond the supported moments.
#[tactic(auto, unfolding(crate::specs::Moments::end_of))]
pub fn end_of(start: Moment, parameter: &Param) -> Option<Moment>
    ensures end { seconds_if_any result ≡ moments.end_of start.seconds parameter.now }
    ensures range { IfSome result (λ m. (start.seconds <ℤ m.seconds) × (m.seconds ≤ℤ HI)) }
{
    moment_given(parameter).filter(|m| is_end(start, *m))
}
