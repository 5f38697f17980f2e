//! The moment up to which two zones agree, by the transitions that their files share.
ghost use Rattle.std.specs.Prelude.{◌<◌, length, IsTrue};
ghost use Rattle.td_civil.specs.declared.moment_type.TheConstants.{LO};
ghost use Rattle.zone_meaning.specs.Alike.{AreAlikeUpTo, IsAlikeAt};
ghost use Rattle.zone_meaning.specs.Difference.{lists_state, AreAlike};
ghost use Rattle.zone_meaning.specs.Kept.{HasTypes};
ghost use Rattle.zone_meaning.specs.State.{zone_state};

use crate::Zone;
use crate::lookup::type_after;
use crate::zone_type::{lists_of_parts, parts_of};
use td_civil::{LO, Moment};
use tzif_reader::ZoneLists;

/// A moment before which two zones agree: the last transition of the common beginning of both
/// files. It is the start of 1800 if the first transitions differ. No footer is looked at.
pub(crate) fn alike_until(one: &Zone, two: &Zone) -> Moment
    ensures { AreAlike (zone_state one.now) (zone_state two.now) LO result.seconds }
{
    let (one, two) = (parts_of(one), parts_of(two));
    alike_until_lists(&lists_of_parts(one), &lists_of_parts(two))
}

/// The same for the lists of two files.
fn alike_until_lists(one: &ZoneLists, two: &ZoneLists) -> Moment
    requires types { HasTypes one.now }
    requires other_types { HasTypes two.now }
    ensures { AreAlike (lists_state one.now) (lists_state two.now) LO result.seconds }
{
    let count = alike_transitions(one, two);
    if count == 0 {
        return Moment { seconds: LO };
    }
    one.moment(count - 1)
}

/// How many transitions, counted from the first, two files have in common.
fn alike_transitions(one: &ZoneLists, two: &ZoneLists) -> usize
    requires types { HasTypes one.now }
    requires other_types { HasTypes two.now }
    ensures { AreAlikeUpTo one.now two.now result }
{
    let count = one.len();
    for place in 0..count {
        if !is_alike_at(one, two, place) {
            return place;
        }
    }
    count
}

/// Whether two files have their transition of this index at the same moment, and the same state
/// before it.
fn is_alike_at(one: &ZoneLists, two: &ZoneLists, place: usize) -> bool
    requires types { HasTypes one.now }
    requires other_types { HasTypes two.now }
    requires inside { place < length one.now.moments }
    ensures { IsTrue result → IsAlikeAt one.now two.now place }
{
    place < two.len()
        && one.moment(place).seconds == two.moment(place).seconds
        && type_after(one, place).is_same(type_after(two, place))
}
