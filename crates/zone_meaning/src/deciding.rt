//! The moment by which two zones differ, if they ever do.
ghost use Rattle.std.specs.Prelude.{◌≡◌, ◌⊎◌, ◌-◌, length, IsTrue, ◌+ℤ◌, ◌≤ℤ◌, ◌<ℤ◌, pos};
ghost use Rattle.std.specs.List.{slice_get};
ghost use Rattle.std.specs.Option.{IfSome};
ghost use Rattle.td_civil.specs.Bounds.{HasMeaning};
ghost use Rattle.posix_footer.specs.Lawful.{IsLawful};
ghost use Rattle.zone_meaning.specs.Difference.{lists_state, Decides};
ghost use Rattle.zone_meaning.specs.Kept.{HasTypes};
ghost use Rattle.zone_meaning.specs.Observed.{IsRange};
ghost use Rattle.zone_meaning.specs.State.{footer_meant, zone_state};
ghost use Rattle.zone_meaning.specs.Walks.{HaveBegun};

use crate::Zone;
use crate::zone_type::{lists_of_parts, parts_of};
use td_civil::{CYCLE, HI, LO, Moment};
use tzif_reader::ZoneLists;

/// A moment before which two zones differ, if they ever do.
pub(crate) fn decided_by(one: &Zone, two: &Zone) -> Moment
    ensures range { IsRange LO result.seconds }
    ensures decided { Decides (zone_state one.now) (zone_state two.now) result.seconds }
{
    let (one, two) = (parts_of(one), parts_of(two));
    decided_by_lists(&lists_of_parts(one), &lists_of_parts(two))
}

/// The same for the lists of two files. After the last transition of both, the footers decide. With
/// equal footer texts the zones agree for ever. With different ones, any difference shows within
/// one period of the calendar.
fn decided_by_lists(one: &ZoneLists, two: &ZoneLists) -> Moment
    requires types { HasTypes one.now }
    requires lawful { IfSome (footer_meant one.now.footer) IsLawful }
    requires ends { IfSome (slice_get one.now.moments (length one.now.moments - 1))
        (λ m. m.seconds <ℤ HI) }
    requires other_types { HasTypes two.now }
    requires other_lawful { IfSome (footer_meant two.now.footer) IsLawful }
    requires other_ends { IfSome (slice_get two.now.moments (length two.now.moments - 1))
        (λ m. m.seconds <ℤ HI) }
    ensures range { IsRange LO result.seconds }
    ensures decided { Decides (lists_state one.now) (lists_state two.now) result.seconds }
{
    let last = last_of_both(one, two);
    if has_same_footer(one, two) {
        second_after(last)
    } else {
        cycle_after(last)
    }
}

/// Whether the footers of two files have the same text.
fn has_same_footer(one: &ZoneLists, two: &ZoneLists) -> bool
    ensures { IsTrue result → one.now.footer ≡ two.now.footer }
{
    one.footer() == two.footer()
}

/// The next second.
fn second_after(last: Moment) -> Moment
    requires { HasMeaning last.seconds }
    ensures range { IsRange LO result.seconds }
    ensures next { result.seconds ≡ last.seconds +ℤ pos 1 }
{
    Moment {
        seconds: last.seconds + 1,
    }
}

/// One period of the calendar later, or the end of the supported moments if that is earlier.
fn cycle_after(last: Moment) -> Moment
    requires { HasMeaning last.seconds }
    ensures range { IsRange LO result.seconds }
    ensures end { (result.seconds ≡ last.seconds +ℤ pos 12_622_780_800) ⊎ (result.seconds ≡ HI) }
{
    let end = last.seconds + CYCLE;
    if end < HI {
        Moment { seconds: end }
    } else {
        Moment { seconds: HI }
    }
}

/// A moment by which every transition of both files has passed.
fn last_of_both(one: &ZoneLists, two: &ZoneLists) -> Moment
    requires types { HasTypes one.now }
    requires ends { IfSome (slice_get one.now.moments (length one.now.moments - 1))
        (λ m. m.seconds <ℤ HI) }
    requires other_types { HasTypes two.now }
    requires other_ends { IfSome (slice_get two.now.moments (length two.now.moments - 1))
        (λ m. m.seconds <ℤ HI) }
    ensures meaning { HasMeaning result.seconds }
    ensures one { HaveBegun one.now.moments result.seconds (length one.now.moments) }
    ensures two { HaveBegun two.now.moments result.seconds (length two.now.moments) }
{
    later(last_turn(one), last_turn(two))
}

/// A moment by which every transition has passed: the last one, or the start of 1800 if that is
/// later.
pub(crate) fn last_turn(lists: &ZoneLists) -> Moment
    requires types { HasTypes lists.now }
    requires ends { IfSome (slice_get lists.now.moments (length lists.now.moments - 1))
        (λ m. m.seconds <ℤ HI) }
    ensures meaning { HasMeaning result.seconds }
    ensures begun { HaveBegun lists.now.moments result.seconds (length lists.now.moments) }
{
    let first = Moment { seconds: LO };
    let count = lists.len();
    if count == 0 {
        return first;
    }
    later(first, lists.moment(count - 1))
}

/// The later of two moments.
fn later(one: Moment, two: Moment) -> Moment
    ensures first { one.seconds ≤ℤ result.seconds }
    ensures second { two.seconds ≤ℤ result.seconds }
    ensures either { (result.seconds ≡ one.seconds) ⊎ (result.seconds ≡ two.seconds) }
{
    if one.seconds <= two.seconds { two } else { one }
}
