//! The observances of a range (RFC 7808, section 5.4).
ghost use Rattle.std.specs.Prelude.{◌≡◌, [], None, IfOk};
ghost use Rattle.zone_meaning.specs.Observed.{changes_between, observed, IsRange};
ghost use Rattle.zone_meaning.specs.State.{zone_state};
ghost use Rattle.zone_meaning.specs.WalkLeft.{left, HandsOut, IsSoundWalk};

use crate::Zone;
use crate::lookup::{begun, state_when};
use crate::walk::Walk;
use crate::zone_type::{lists_of_parts, parts_of};
use std::alloc::Global;
use std::marker::Model;
use td_base::{Items, NoMemory};
use td_civil::{Moment, Observance};

/// The observances of a range, returned one at a time in rising order. Contracts see it as the list
/// of those that are left. A step takes time for the transitions and onsets up to the next change,
/// and allocates nothing.
#[derive(Drop)]
pub struct Changes<'a> {
    first: Option<Observance>,
    walk: Walk<'a>,
}

impl<'a> Model for Changes<'a> {
    ghost use Rattle.std.specs.Prelude.{List};
    ghost use Rattle.td_civil.specs.declared.local_time.Observance.{Observance};

    ghost Value = { List Observance };

    ghost use Rattle.zone_meaning.specs.WalkLeft.{left, with_first_if_any, IsSoundWalk};

    ghost view = { λ o. with_first_if_any o.first (left o.walk) };

    ghost invariant = { λ o. IsSoundWalk o.walk };
}

impl<'a> Changes<'a> {
    /// The observances from a moment to before another: the state at the first, and each change
    /// after it. It allocates nothing. Of the transitions up to the first moment it looks only at
    /// the last.
    pub fn new(zone: &'a Zone, a: Moment, b: Moment) -> Self
        requires { IsRange a.seconds b.seconds }
        ensures { result ≡ observed (zone_state zone.now) a.seconds b.seconds }
    {
        let walk = walk_from(zone, a, b);
        let first = Observance {
            onset: a,
            from: walk.state.offset,
            to: walk.state.offset,
            dst: walk.state.dst,
            name: walk.state.name.copy(),
        };
        Changes {
            first: Some(first),
            walk,
        }
    }

    /// The changes after a moment and before another, without the state at the first.
    pub fn after(zone: &'a Zone, a: Moment, b: Moment) -> Self
        requires { IsRange a.seconds b.seconds }
        ensures { result ≡ changes_between (zone_state zone.now) a.seconds b.seconds }
    {
        Changes {
            first: None,
            walk: walk_from(zone, a, b),
        }
    }

    /// The next observance, or None when none is left.
    pub fn next(&mut self) -> Option<Observance>
        ensures next { HandsOut self.old result self.new }
        ensures none { result ≡ None → self.new ≡ [] }
    {
        match self.first.take() {
            Some(first) => Some(first),
            None => self.walk.next(),
        }
    }
}

/// A walk at a moment, which goes on to before another.
fn walk_from<'a>(zone: &'a Zone, a: Moment, b: Moment) -> Walk<'a>
    requires { IsRange a.seconds b.seconds }
    ensures sound { IsSoundWalk result }
    ensures state { result.state ≡ zone_state zone.now a.seconds }
    ensures left { left result ≡ changes_between (zone_state zone.now) a.seconds b.seconds }
{
    let parts = parts_of(zone);
    let lists = lists_of_parts(parts);
    let begun = begun(&lists, a);
    let state = state_when(&lists, &parts.footer, begun, a);
    Walk {
        lists,
        footer: &parts.footer,
        end: b,
        at: a,
        begun,
        state,
        ahead: None,
    }
}

/// The observances from a moment to before another, in rising order (RFC 7808, section 5.4). The
/// first is the state at the start, with both offsets equal. Each further one is a moment at which
/// offset, flag or name change.
pub fn observances(
    alloc: Global,
    zone: &Zone,
    a: Moment,
    b: Moment,
) -> Result<Items<Observance>, NoMemory>
    requires { IsRange a.seconds b.seconds }
    ensures { IfOk result (λ list. list ≡ observed (zone_state zone.now) a.seconds b.seconds) }
{
    let mut rest = Changes::new(zone, a, b);
    let mut list = Items::new(alloc);
    while let Some(observance) = rest.next() {
        list.push(observance)?;
    }
    Ok(list)
}
