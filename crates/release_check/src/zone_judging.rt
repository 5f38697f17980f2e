//! Checks what a zone of a release means.
ghost use Rattle.std.specs.Prelude.{◌≡◌, IsErrOf, false, is_err};
ghost use Rattle.std.specs.Option.{option_map_or};
ghost use Rattle.posix_footer.specs.Carried.{beyond};
ghost use Rattle.tzif_reader.specs.Cut.{lists_of};
ghost use Rattle.zone_meaning.specs.State.{footer_meant};
ghost use Rattle.release_check.specs.Judged.{JudgesUnread};
ghost use Rattle.release_check.specs.declared.check_fault.CheckFault.TheVariants as fault;
ghost use Rattle.release_check.specs.Faults.{meaning_fault};

use crate::check_fault::CheckFault;
use recurrence::carry;
use zone_meaning::{Zone, footer, footer_agrees, has_printable_names};

/// Looks for the first fault of what a zone means. Its footer disagrees with its last transition, a
/// name cannot be printed, or no yearly rules say what its footer says.
#[tactic(auto, unfolding(crate::specs::Faults::meaning_fault))]
pub fn judge_zone(number: usize, zone: &Zone) -> Result<(), CheckFault>
    ensures judged { JudgesUnread (meaning_fault number zone.now) result }
    ensures memory { IsErrOf result fault.NoMemory → ⊥ }
{
    if !footer_agrees(zone) {
        return Err(CheckFault::FooterDisagrees(number));
    }
    if !has_printable_names(zone) {
        return Err(CheckFault::NameBeyond(number));
    }
    if is_beyond(zone) {
        return Err(CheckFault::RuleBeyond(number));
    }
    Ok(())
}

/// Whether no yearly rules say what the zone's footer says.
fn is_beyond(zone: &Zone) -> bool
    ensures { result ≡ option_map_or beyond (footer_meant (lists_of zone.now).footer) false }
{
    match footer(zone) {
        None => false,
        Some(footer) => carry(footer).is_err(),
    }
}
