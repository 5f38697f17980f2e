ghost use Rattle.std.specs.Prelude.{◌≡◌, [], ℕ, List, ◌||◌, map, not, IfOk, OnOk};
ghost use Rattle.std.specs.List.{list_any};
ghost use Rattle.std.specs.Str.{bytes_eq};
ghost use Rattle.release_check.specs.Judged.{JudgesUnread};
ghost use Rattle.release_check.specs.Faults.{duplicate_fault};

use crate::check_fault::CheckFault;
use std::alloc::Global;
use std::collections::HashSet;
use td_base::{Bytes, NoMemory};

/// Looks for the first name that repeats an earlier one, and returns all names.
pub fn judge_duplicates<'a>(
    alloc: Global,
    names: &[&'a [u8]],
) -> Result<HashSet<&'a [u8]>, CheckFault>
    ensures first { JudgesUnread (duplicate_fault [] (map (λ n. n.now) names.now)) result }
    ensures kept { IfOk result (λ kept. (text : List ℕ)
        → list_any (bytes_eq text) (map (λ n. n.now) kept.keys)
        ≡ list_any (bytes_eq text) (map (λ n. n.now) names.now)) }
{
    let Ok(mut before) = HashSet::with_capacity(alloc, names.len()) else {
        return Err(CheckFault::NoMemory);
    };
    for name in names {
        if !put_new(&mut before, name)? {
            return Err(CheckFault::Duplicate(Bytes::from_slice(alloc, name)?));
        }
    }
    Ok(before)
}

/// Adds a name to the earlier ones, and returns whether it was new.
fn put_new<'a>(before: &mut HashSet<&'a [u8]>, name: &'a [u8]) -> Result<bool, NoMemory>
    ensures none { IfOk result (λ new.
        new ≡ not (list_any (bytes_eq name.now) (map (λ n. n.now) before.old.keys))) }
    ensures put { OnOk result ((text : List ℕ)
        → list_any (bytes_eq text) (map (λ n. n.now) before.new.keys)
        ≡ (bytes_eq text name.now || list_any (bytes_eq text) (map (λ n. n.now) before.old.keys))) }
{
    let new = before.insert(name)?;
    Ok(new)
}
