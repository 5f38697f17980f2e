//! Whether the footer of a zone continues the state at its last transition.
ghost use Rattle.std.specs.Prelude.{◌≡◌, ◌-◌, ◌<ℤ◌, length, Some};
ghost use Rattle.std.specs.List.{slice_get};
ghost use Rattle.std.specs.Option.{IfSome};
ghost use Rattle.posix_footer.specs.Lawful.{IsLawful};
ghost use Rattle.posix_footer.specs.StateAt.{state_of};
ghost use Rattle.td_civil.specs.Bounds.{HasMeaning};
ghost use Rattle.td_civil.specs.SameLocal.{same_local};
ghost use Rattle.tzif_reader.specs.Cut as cut;
ghost use Rattle.zone_meaning.specs.Agreement as spec;
ghost use Rattle.zone_meaning.specs.Kept.{HasTypes};
ghost use Rattle.zone_meaning.specs.State.{after};

use crate::Zone;
use crate::lookup::state_after;
use crate::zone_type::{lists_of_parts, parts_of};
use posix_footer::Footer;
use td_civil::{HI, LO, Moment};
use tzif_reader::ZoneLists;

/// Whether the footer gives, at the last transition, the state that this transition begins (RFC
/// 9636, section 3.3). True as well for a zone without a footer or without transitions, and for one
/// whose last transition is before 1800.
#[tactic(auto, unfolding(crate::specs::Agreement::footer_agrees))]
pub fn footer_agrees(zone: &Zone) -> bool
    ensures { result ≡ spec.footer_agrees (cut.lists_of zone.now) }
{
    let parts = parts_of(zone);
    match &parts.footer {
        None => true,
        Some(footer) => last_goes_on(&lists_of_parts(parts), footer),
    }
}

/// The same for the lists of a file and its footer.
fn last_goes_on(lists: &ZoneLists, footer: &Footer) -> bool
    requires types { HasTypes lists.now }
    requires lawful { IsLawful footer.now }
    requires ends { IfSome (slice_get lists.now.moments (length lists.now.moments - 1))
        (λ m. m.seconds <ℤ HI) }
    ensures { result ≡ spec.goes_on_if_any lists.now (Some footer.now)
        (slice_get lists.now.moments (length lists.now.moments - 1)) }
{
    let count = lists.len();
    if count == 0 {
        return true;
    }
    goes_on(lists, footer, lists.moment(count - 1))
}

/// Whether a footer gives, at the moment of the last transition, the state that this one begins.
/// True where that moment is before 1800.
#[tactic(auto, unfolding(crate::specs::Agreement::goes_on))]
fn goes_on(lists: &ZoneLists, footer: &Footer, last: Moment) -> bool
    requires types { HasTypes lists.now }
    requires lawful { IsLawful footer.now }
    requires early { last.seconds <ℤ HI }
    ensures { result ≡ spec.goes_on lists.now footer.now last }
{
    last.seconds < LO || is_last_state(lists, footer, last)
}

/// Whether a footer gives, at a moment, the state that the last transition begins.
fn is_last_state(lists: &ZoneLists, footer: &Footer, last: Moment) -> bool
    requires types { HasTypes lists.now }
    requires lawful { IsLawful footer.now }
    requires meaning { HasMeaning last.seconds }
    ensures { result
        ≡ same_local (state_of footer.now last.seconds)
        (after lists.now (length lists.now.moments)) }
{
    let state = posix_footer::at(footer, last);
    state.is_same(&state_after(lists, lists.len()))
}
