//! The state of local time that a zone gives at a moment.
ghost use Rattle.std.specs.Prelude.{◌≡◌, ◌≤◌, length};
ghost use Rattle.std.specs.Option.{IfSome};
ghost use Rattle.jiff_core.specs.Calendar.{IsWithin};
ghost use Rattle.td_civil.specs.Bounds.{HasMeaning};
ghost use Rattle.posix_footer.specs.Lawful.{IsLawful};
ghost use Rattle.zone_meaning.specs.Kept.{HasTypes};
ghost use Rattle.zone_meaning.specs.Walks.{HaveBegun};
ghost use Rattle.tzif_reader.specs.Cut as cut;
ghost use Rattle.zone_meaning.specs.Rules.{FollowsRules};
ghost use Rattle.zone_meaning.specs.State as state;

use crate::Zone;
use crate::zone_type::{lists_of_parts, parts_of};
use posix_footer::Footer;
use td_civil::{Local, Moment};
use tzif_reader::ZoneLists;

/// The state of local time at a moment: offset, daylight saving flag and name (RFC 9636, sections
/// 3.2 and 3.3). It allocates nothing.
#[tactic(auto, using(crate::proofs::lemmas::Types::kept_types, crate::proofs::lemmas::Types::kept_state, crate::proofs::lemmas::RuleLemmas::zone_follows))]
pub fn at(zone: &Zone, t: Moment) -> Local
    requires { HasMeaning t.seconds }
    ensures state { result ≡ state.zone_state zone.now t.seconds }
    ensures rules { FollowsRules (cut.lists_of zone.now)
        (state.footer_meant (cut.lists_of zone.now).footer) t.seconds result }
    ensures offset { IsWithin 86_399 result.offset }
{
    let parts = parts_of(zone);
    state_at(&lists_of_parts(parts), &parts.footer, t)
}

/// The state that a file's lists and its footer give at a moment.
pub(crate) fn state_at(lists: &ZoneLists, footer: &Option<Footer>, t: Moment) -> Local
    requires types { HasTypes lists.now }
    requires lawful { IfSome footer.now IsLawful }
    requires meaning { HasMeaning t.seconds }
    ensures { result ≡ state.state_at lists.now footer.now t.seconds }
{
    state_when(lists, footer, begun(lists, t), t)
}

/// The same, given how many transitions are not after the moment.
pub(crate) fn state_when(
    lists: &ZoneLists,
    footer: &Option<Footer>,
    begun: usize,
    t: Moment,
) -> Local
    requires types { HasTypes lists.now }
    requires lawful { IfSome footer.now IsLawful }
    requires meaning { HasMeaning t.seconds }
    requires begun_is { begun ≡ state.begun t.seconds lists.now.moments }
    requires bound { begun ≤ length lists.now.moments }
    ensures { result ≡ state.state_at lists.now footer.now t.seconds }
{
    match footer {
        Some(footer) if begun == lists.len() => posix_footer::at(footer, t),
        _ => state_after(lists, begun),
    }
}

/// How many transitions are not after a moment.
pub(crate) fn begun(lists: &ZoneLists, t: Moment) -> usize
    requires { HasTypes lists.now }
    ensures count { result ≡ state.begun t.seconds lists.now.moments }
    ensures bound { result ≤ length lists.now.moments }
    ensures place { HaveBegun lists.now.moments t.seconds result }
{
    let (mut low, mut high) = (0, lists.len());
    'halves: while low < high {
        let middle = low + (high - low) / 2;
        if lists.moment(middle).seconds <= t.seconds {
            low = middle + 1;
        } else {
            high = middle;
        }
    }
    low
}

/// The state that the types give after this number of transitions.
pub(crate) fn state_after(lists: &ZoneLists, begun: usize) -> Local
    requires types { HasTypes lists.now }
    requires bound { begun ≤ length lists.now.moments }
    ensures { result ≡ state.after lists.now begun }
{
    type_after(lists, begun).copy()
}

/// The type in force after this number of transitions.
pub(crate) fn type_after<'a>(lists: &ZoneLists<'a>, begun: usize) -> &'a Local
    requires types { HasTypes lists.now }
    requires bound { begun ≤ length lists.now.moments }
    ensures { result.now ≡ state.after lists.now begun }
{
    let number = if begun == 0 {
        0
    } else {
        lists.number(begun - 1)
    };
    &lists.kinds()[number as usize]
}
