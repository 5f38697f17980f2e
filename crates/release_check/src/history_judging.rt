//! Checks a release against the history of a catalogue.
ghost use Rattle.std.specs.Prelude.{◌≡◌, ℕ, List, IsErrOf, map, option_copied};
ghost use Rattle.std.specs.List.{list_any};
ghost use Rattle.std.specs.Str.{bytes_eq};
ghost use Rattle.catalogue.specs.Holdings.{names_held};
ghost use Rattle.zone_meaning.specs.ZoneHistories.{zone_bytes};
ghost use Rattle.release_check.specs.Before.{before_held, drop_fault, first_missing, place_fault};
ghost use Rattle.release_check.specs.Before.{stamp_fault};
ghost use Rattle.release_check.specs.Judged.{JudgesUnread};
ghost use Rattle.release_check.specs.declared.check_fault.CheckFault.TheVariants as fault;

use crate::check_fault::CheckFault;
use catalogue::{Catalogue, MOST_RELEASES};
use std::alloc::Global;
use std::collections::HashSet;
use td_base::Bytes;
use td_civil::Moment;
use zone_meaning::Zone;

/// Checks that a release is not earlier than the last one.
pub fn judge_stamp(stamp: Moment, last: Option<&Catalogue<Zone>>) -> Result<(), CheckFault>
    ensures judged { JudgesUnread (stamp_fault (before_held (option_copied last.entry)).last stamp)
        result }
    ensures memory { IsErrOf result fault.NoMemory → ⊥ }
{
    match last {
        None => Ok(()),
        Some(last) => {
            let old = last.last_stamp();
            if stamp.seconds < old.seconds {
                return Err(CheckFault::StampBack(old, stamp));
            }
            Ok(())
        }
    }
}

/// Looks for the least name of the last release that is not one of the new names.
pub fn judge_drops<'a>(
    alloc: Global,
    new: &HashSet<&'a [u8]>,
    last: Option<&'a Catalogue<Zone>>,
) -> Result<(), CheckFault>
    ensures { (names : List (List ℕ))
        → ((text : List ℕ)
        → list_any (bytes_eq text) (map (λ n. n.now) new.now.keys) ≡ list_any (bytes_eq text) names)
        → JudgesUnread (drop_fault (before_held (option_copied last.entry)).last names) result }
{
    match last {
        None => Ok(()),
        Some(last) => judge_names(alloc, new, last),
    }
}

/// The same for the names of a catalogue, in their order.
fn judge_names<'a>(
    alloc: Global,
    new: &HashSet<&'a [u8]>,
    last: &'a Catalogue<Zone>,
) -> Result<(), CheckFault>
    ensures { JudgesUnread (first_missing (names_held zone_bytes last.now)
        (map (λ n. n.now) new.now.keys)) result }
{
    for at in 0..last.name_count() {
        let name = last.name(at);
        if !is_among(name, new) {
            return Err(CheckFault::Drops(Bytes::from_slice(alloc, name)?));
        }
    }
    Ok(())
}

/// Whether a name is one of these.
fn is_among<'a>(name: &'a [u8], names: &HashSet<&'a [u8]>) -> bool
    ensures { result ≡ list_any (bytes_eq name.now) (map (λ n. n.now) names.now.keys) }
{
    names.contains(&name)
}

/// Checks that the history is not full.
pub fn judge_places(last: Option<&Catalogue<Zone>>) -> Result<(), CheckFault>
    ensures judged { JudgesUnread (place_fault (before_held (option_copied last.entry)).count)
        result }
    ensures memory { IsErrOf result fault.NoMemory → ⊥ }
{
    match last {
        Some(last) if MOST_RELEASES <= last.count() => Err(CheckFault::HistoryFull),
        _ => Ok(()),
    }
}
