//! The range of time that a request gives by its parameters.
ghost use Rattle.std.specs.Prelude.{◌≡◌, IfOk, IfSome};
ghost use Rattle.td_civil.specs.Bounds.{HasMeaning};
ghost use Rattle.vtimezone.specs.Ranges.{IsEndOf, seconds_if_any};
ghost use Rattle.actions.specs.Bounds as spec;

use crate::moments::{end_of, start_of};
use json_forms::Problem;
use target::Param;
use td_civil::{HI, LO, Moment};
use vtimezone::Range;

/// A bound of a range of time, in UTC.
#[derive(Clone, Copy)]
pub enum Bound {
    /// The range extends to the first or to the last supported moment.
    Open,
    At(Moment),
}

/// A range of time. The end does not belong to it.
#[derive(Clone, Copy)]
pub struct Bounds {
    pub start: Bound,
    pub end: Bound,
}

/// Which bounds a request may give.
#[derive(Clone, Copy)]
pub enum BoundRule {
    /// Both must be given.
    Required,
    /// Each may be left open.
    Optional,
    /// None may be given.
    Refused,
}

/// The bound if the request gives none. None if a bound is required.
fn bound_absent(rule: BoundRule) -> Option<Bound>
    ensures { result ≡ spec.bound_absent rule }
{
    match rule {
        BoundRule::Required => None,
        BoundRule::Optional => Some(Bound::Open),
        BoundRule::Refused => Some(Bound::Open),
    }
}

/// The bound at a moment that the request gives. None if no bound may be given, or the moment is
/// invalid.
fn bound_present(rule: BoundRule, moment: Option<Moment>) -> Option<Bound>
    ensures { result ≡ spec.bound_present rule (seconds_if_any moment) }
{
    match rule {
        BoundRule::Required => moment.map(Bound::At),
        BoundRule::Optional => moment.map(Bound::At),
        BoundRule::Refused => None,
    }
}

/// The start of a range. None if it is refused.
#[tactic(auto, using(crate::proofs::BoundLemmas::absent_start, crate::proofs::BoundLemmas::present_start), unfolding(crate::specs::Bounds::start_bound))]
fn start_bound(rule: BoundRule, parameter: &Param) -> Option<Bound>
    ensures bound { result ≡ spec.start_bound rule parameter.now }
    ensures meaning { IfSome result (λ start. HasMeaning (spec.begin_of start).seconds) }
{
    match parameter {
        Param::Absent => bound_absent(rule),
        Param::Once(_) | Param::Repeated => bound_present(rule, start_of(parameter)),
    }
}

/// The end of a range with this start. None if it is refused.
#[tactic(auto, using(crate::proofs::BoundLemmas::absent_end, crate::proofs::BoundLemmas::present_end), unfolding(crate::specs::Bounds::end_bound))]
fn end_bound(rule: BoundRule, start: Bound, parameter: &Param) -> Option<Bound>
    ensures bound { result ≡ spec.end_bound rule start parameter.now }
    ensures range { IfSome result (λ end. IsEndOf (spec.begin_of start).seconds
        (seconds_if_any (spec.end_if_any end))) }
{
    match parameter {
        Param::Absent => bound_absent(rule),
        Param::Once(_) | Param::Repeated => bound_present(rule, end_of(begin_of(start), parameter)),
    }
}

/// The range that a request gives. If both bounds are refused, the problem is that of the start.
#[tactic(auto, unfolding(crate::specs::Bounds::bounds_in))]
pub fn bounds_in(rule: BoundRule, start: &Param, end: &Param) -> Result<Bounds, Problem>
    ensures bounds { result ≡ spec.bounds_in rule start.now end.now }
    ensures range { IfOk result spec.AreBounds }
{
    let Some(start) = start_bound(rule, start) else {
        return Err(Problem::InvalidStart);
    };
    let Some(end) = end_bound(rule, start, end) else {
        return Err(Problem::InvalidEnd);
    };
    Ok(Bounds { start, end })
}

/// The first moment of a range with this start.
pub fn begin_of(start: Bound) -> Moment
    ensures { result ≡ spec.begin_of start }
{
    match start {
        Bound::Open => Moment { seconds: LO },
        Bound::At(moment) => moment,
    }
}

/// The first moment after a range with this end.
pub fn finish_of(end: Bound) -> Moment
    ensures { result ≡ spec.finish_of end }
{
    match end {
        Bound::Open => Moment { seconds: HI },
        Bound::At(moment) => moment,
    }
}

/// The first moment after a range with this end, if the end is not open.
fn end_if_any(end: Bound) -> Option<Moment>
    ensures { result ≡ spec.end_if_any end }
{
    match end {
        Bound::Open => None,
        Bound::At(moment) => Some(moment),
    }
}

/// The range between two bounds.
pub fn range_between(bounds: Bounds) -> Range
    ensures { result ≡ spec.range_between bounds }
{
    Range {
        from: begin_of(bounds.start),
        until: end_if_any(bounds.end),
    }
}
