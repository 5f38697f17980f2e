//! From when on a zone's state comes again with the calendar.
ghost use Rattle.td_civil.specs.Bounds.{HasMeaning};
ghost use Rattle.td_civil.specs.Cycles.{RepeatsFrom};
ghost use Rattle.zone_meaning.specs.State.{zone_state};

use crate::Zone;
use crate::deciding::last_turn;
use crate::zone_type::{lists_of_parts, parts_of};
use td_civil::Moment;

/// A moment from which on the state of a zone comes again after each period of the calendar: by
/// then every transition has passed, and the footer decides.
pub fn repeats_from(zone: &Zone) -> Moment
    ensures meaning { HasMeaning result.seconds }
    ensures repeats { RepeatsFrom (zone_state zone.now) result.seconds }
{
    last_turn(&lists_of_parts(parts_of(zone)))
}
