ghost use Rattle.std.specs.Prelude.{◌≡◌, ◌||◌, ◌≤◌, ℕ, List, filter, length, not, IfOk, OnOk};
ghost use Rattle.std.specs.List.{list_any};
ghost use Rattle.std.specs.Str.{bytes_eq};
ghost use Rattle.sync_core.specs.Keeping.{has_listed_name};
ghost use Rattle.sync_core.specs.Steps.{is_alias};

use json_forms::ListZone;
use std::alloc::Global;
use std::collections::{BTreeMap, BTreeSet};
use td_base::{Bytes, NoMemory};

/// The names that occur as aliases in a list.
pub fn aliases_in(alloc: Global, zones: &[ListZone]) -> Result<BTreeSet<Bytes>, NoMemory>
    ensures { IfOk result (λ names. (name : List ℕ)
        → has_listed_name names.keys name ≡ is_alias zones.now name) }
{
    let mut names = BTreeSet::new(alloc);
    for zone in zones {
        put_aliases(alloc, &mut names, zone.aliases.as_slice())?;
    }
    Ok(names)
}

/// Adds aliases to the names.
fn put_aliases(
    alloc: Global,
    names: &mut BTreeSet<Bytes>,
    aliases: &[Bytes],
) -> Result<(), NoMemory>
    ensures { OnOk result ((name : List ℕ)
        → has_listed_name names.new.keys name
        ≡ (list_any (bytes_eq name) aliases.now || has_listed_name names.old.keys name)) }
{
    for alias in aliases {
        let _ = names.insert(alias.clone_in(alloc)?)?;
    }
    Ok(())
}

/// Drops the entries whose identifiers are among the names.
pub fn drop_entries(entries: &mut Vec<ListZone>, names: &BTreeSet<Bytes>)
    ensures kept { entries.new.items
        ≡ filter (λ z. not (has_listed_name names.now.keys z.tzid)) entries.old.items }
    ensures fewer { length entries.new.items ≤ length entries.old.items }
{
    entries.retain(|zone| !is_among(names, &zone.tzid));
}

/// Drops the files whose names are among the names.
pub fn drop_files(files: &mut BTreeMap<Bytes, Bytes>, names: &BTreeSet<Bytes>)
    ensures { files.new.entries
        ≡ filter (λ e. not (has_listed_name names.now.keys e.0)) files.old.entries }
{
    files.retain(|tzid, _| !is_among(names, tzid));
}

/// Whether a name is among the names.
#[tactic(auto, using(crate::proofs::Kept::is_among))]
fn is_among(names: &BTreeSet<Bytes>, name: &Bytes) -> bool
    ensures { result ≡ has_listed_name names.now.keys name.now }
{
    names.contains(name)
}
