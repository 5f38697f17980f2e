//! A walk over the changes of a zone's state: from one moment at which it may change to the next.
//! Those moments are the remaining transitions, and then the onsets of the footer.
ghost use Rattle.std.specs.Prelude.{◌≡◌, Some};
ghost use Rattle.std.specs.Option.{IfSome, option_map};
ghost use Rattle.td_civil.specs.Bounds.{HasMeaning};
ghost use Rattle.posix_footer.specs.Lawful.{IsLawful};
ghost use Rattle.zone_meaning.specs.Kept.{HasTypes};
ghost use Rattle.posix_footer.specs.NextOnset.{IsNext};
ghost use Rattle.posix_footer.specs.StateAt.{state_of};
ghost use Rattle.zone_meaning.specs.Turns.{IsKnown, KnowsAhead};
ghost use Rattle.zone_meaning.specs.Walks.{HaveBegun, IsAheadOf, IsKnownAhead, IsNextTurn};

use posix_footer::{Ahead, Footer, ahead_after, ahead_of, change_ahead};
use td_civil::{Local, Moment};
use tzif_reader::ZoneLists;

/// The position of a walk.
#[derive(Drop)]
pub(crate) struct Walk<'a> {
    pub(crate) lists: ZoneLists<'a>,
    pub(crate) footer: &'a Option<Footer>,
    /// The walk returns only changes before this moment.
    pub(crate) end: Moment,
    /// The moment that was reached, the number of transitions up to it, and the state there.
    pub(crate) at: Moment,
    pub(crate) begun: usize,
    pub(crate) state: Local,
    /// The footer's onsets ahead of that moment, if they are known.
    pub(crate) ahead: Option<Ahead>,
}

/// A moment at which the state may change. The state from it on, and the footer's onsets ahead of
/// it, are given if they are known, as they are for an onset of the footer.
#[derive(Drop)]
pub(crate) struct StateTurn {
    pub(crate) at: Moment,
    pub(crate) state: Option<Local>,
    pub(crate) ahead: Option<Ahead>,
}

/// The next moment at which the state may change, after one by which this number of transitions
/// have passed, and whose onsets ahead may be known.
pub(crate) fn next_turn(
    lists: &ZoneLists,
    footer: &Option<Footer>,
    begun: usize,
    t: Moment,
    known: &Option<Ahead>,
) -> Option<StateTurn>
    requires types { HasTypes lists.now }
    requires lawful { IfSome footer.now IsLawful }
    requires meaning { HasMeaning t.seconds }
    requires begun { HaveBegun lists.now.moments t.seconds begun }
    requires known { IsKnownAhead footer.now t.seconds known.now }
    ensures turn { IsNextTurn lists.now footer.now t.seconds begun
        (option_map (λ turn. turn.at) result) }
    ensures state { IfSome result (IsKnown lists.now footer.now) }
    ensures ahead { IfSome result (KnowsAhead footer.now) }
{
    if begun < lists.len() {
        return Some(StateTurn {
            at: lists.moment(begun),
            state: None,
            ahead: None,
        });
    }
    match footer {
        Some(footer) => next_turn_of(footer, t, known),
        None => None,
    }
}

/// The next onset of a footer, with the state from it on and the onsets ahead of it.
fn next_turn_of(footer: &Footer, t: Moment, known: &Option<Ahead>) -> Option<StateTurn>
    requires lawful { IsLawful footer.now }
    requires meaning { HasMeaning t.seconds }
    requires known { IfSome known.now (IsAheadOf footer.now t.seconds) }
    ensures next { IsNext footer.now.dst footer.now.std.offset t.seconds
        (option_map (λ turn. turn.at) result) }
    ensures state { IfSome result (λ turn. turn.state
        ≡ Some (state_of footer.now turn.at.seconds)) }
    ensures ahead { IfSome result (λ turn. IfSome turn.ahead
        (IsAheadOf footer.now turn.at.seconds)) }
{
    let ahead = onsets_ahead(footer, t, known);
    match change_ahead(footer, &ahead) {
        Some(change) => Some(StateTurn {
            at: change.at,
            state: Some(change.state),
            ahead: Some(ahead_after(footer, &ahead, change.at)),
        }),
        None => None,
    }
}

/// The onsets ahead of a moment, computed if they are not known yet.
fn onsets_ahead(footer: &Footer, t: Moment, known: &Option<Ahead>) -> Ahead
    requires lawful { IsLawful footer.now }
    requires meaning { HasMeaning t.seconds }
    requires known { IfSome known.now (IsAheadOf footer.now t.seconds) }
    ensures { IsAheadOf footer.now t.seconds result }
{
    match known {
        Some(ahead) => *ahead,
        None => ahead_of(footer, t),
    }
}
