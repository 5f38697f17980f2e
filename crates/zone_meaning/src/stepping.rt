//! The steps of a walk over the changes of a zone.
ghost use Rattle.std.specs.Prelude.{◌≡◌, ◌≤◌, ◌+◌, min, length, [], None};
ghost use Rattle.std.specs.Option.{IfSome, option_map};
ghost use Rattle.zone_meaning.specs.State.{state_at};
ghost use Rattle.zone_meaning.specs.Turns.{IsKnown, KnowsAhead};
ghost use Rattle.zone_meaning.specs.Walks.{IsNextStop};
ghost use Rattle.zone_meaning.specs.WalkLeft.{left, HandsOut, IsFurther, IsSoundWalk, StopsAt};

use crate::lookup::state_when;
use crate::walk::{StateTurn, Walk, next_turn};
use td_civil::{Local, Observance};

/// The count after the next transition, if there are more transitions.
fn one_more(begun: usize, len: usize) -> usize
    requires { begun ≤ len }
    ensures { result ≡ min (begun + 1) len }
{
    if begun < len { begun + 1 } else { len }
}

impl<'a> Walk<'a> {
    /// The next change before the end, if any.
    pub(crate) fn next(&mut self) -> Option<Observance>
        requires { IsSoundWalk self.old }
        ensures sound { IsSoundWalk self.new }
        ensures left { HandsOut (left self.old) result (left self.new) }
        ensures none { result ≡ None → left self.new ≡ [] }
    {
        while let Some(stop) = self.next_stop() {
            if let Some(change) = self.go_on(stop) {
                return Some(change);
            }
        }
        None
    }

    /// The next moment before the end at which the state may change.
    fn next_stop(&self) -> Option<StateTurn>
        requires { IsSoundWalk self.now }
        ensures stop { IsNextStop self.now.lists self.now.footer.now self.now.at.seconds
            self.now.end.seconds self.now.begun (option_map (λ turn. turn.at) result) }
        ensures state { IfSome result (IsKnown self.now.lists self.now.footer.now) }
        ensures ahead { IfSome result (KnowsAhead self.now.footer.now) }
    {
        match next_turn(&self.lists, self.footer, self.begun, self.at, &self.ahead) {
            Some(turn) if turn.at.seconds < self.end.seconds => Some(turn),
            _ => None,
        }
    }

    /// Advances to a moment up to which the state stays the same, and returns the change if the
    /// state changes there.
    fn go_on(&mut self, stop: StateTurn) -> Option<Observance>
        requires sound { IsSoundWalk self.old }
        requires stop { StopsAt self.old stop.at.seconds }
        requires known { IsKnown self.old.lists self.old.footer.now stop }
        requires ahead { KnowsAhead self.old.footer.now stop }
        ensures sound { IsSoundWalk self.new }
        ensures further { IsFurther self.old self.new }
        ensures left { HandsOut (left self.old) result (left self.new) }
    {
        let begun = one_more(self.begun, self.lists.len());
        let onset = stop.at;
        let ahead = stop.ahead;
        let state = self.state_from(stop, begun);
        let same = state.is_same(&self.state);
        let change = Observance {
            onset,
            from: self.state.offset,
            to: state.offset,
            dst: state.dst,
            name: state.name.copy(),
        };
        self.at = onset;
        self.begun = begun;
        self.state = state;
        self.ahead = ahead;
        if same { None } else { Some(change) }
    }

    /// The state from a moment on, by which this number of transitions have passed.
    fn state_from(&self, stop: StateTurn, begun: usize) -> Local
        requires sound { IsSoundWalk self.now }
        requires stop { StopsAt self.now stop.at.seconds }
        requires known { IsKnown self.now.lists self.now.footer.now stop }
        requires begun { begun
            ≡ min (self.now.begun + 1) (length self.now.lists.moments) }
        ensures { result ≡ state_at self.now.lists self.now.footer.now stop.at.seconds }
    {
        match stop.state {
            Some(state) => state,
            None => state_when(&self.lists, self.footer, begun, stop.at),
        }
    }
}
