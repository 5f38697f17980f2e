ghost use Rattle.std.specs.Prelude.{◌≡◌, IfOk};
ghost use Rattle.release_check.specs.Found.{FindsIn, IsFile};
ghost use Rattle.release_check.specs.Folder.{path_in};

use crate::check_fault::CheckFault;
use std::alloc::Global;
use td_base::{Bytes, FileRead, NoMemory, Store};

/// The most bytes read of a manifest: one more than it may have, so that a longer one is noticed.
pub const MANIFEST_ROOM: u64 = release_manifest::MOST_BYTES as u64 + 1;

/// The most bytes read of a zone file: one more than it may have, so that a longer one is noticed.
pub const ZONE_ROOM: u64 = tzif_reader::MOST_BYTES as u64 + 1;

/// The first bytes of a file of a directory: as many as requested, or the whole file.
pub fn read_in<S: Store>(
    alloc: Global,
    dir: &[u8],
    name: &[u8],
    most: u64,
    store: &mut S,
) -> Result<Bytes, CheckFault>
    ensures { FindsIn (S.seen store.old) (S.seen store.new) result
        (IsFile (path_in dir.now name.now) most result) }
{
    if dir.is_empty() {
        return read_path(alloc, name, most, store);
    }
    let path = path_in(alloc, dir, name)?;
    read_path(alloc, path.as_slice(), most, store)
}

/// The first bytes of the file at a path: as many as requested, or the whole file.
fn read_path<S: Store>(
    alloc: Global,
    path: &[u8],
    most: u64,
    store: &mut S,
) -> Result<Bytes, CheckFault>
    ensures { FindsIn (S.seen store.old) (S.seen store.new) result (IsFile path.now most result) }
{
    match store.read_file(alloc, path, most) {
        FileRead::Found(bytes) => Ok(bytes),
        FileRead::Absent => Err(CheckFault::Absent(Bytes::from_slice(alloc, path)?)),
        FileRead::Failed => Err(CheckFault::ReadFault),
        FileRead::NoMemory => Err(CheckFault::NoMemory),
    }
}

/// The path of a file in a directory. For an empty directory it is the name.
fn path_in(alloc: Global, dir: &[u8], name: &[u8]) -> Result<Bytes, NoMemory>
    ensures { IfOk result (λ path. path ≡ path_in dir.now name.now) }
{
    let room = dir.len().saturating_add(name.len()).saturating_add(1);
    let mut path = Vec::with_capacity(alloc, room)?;
    path.extend_from_slice(dir)?;
    if !dir.is_empty() {
        path.push(b'/')?;
    }
    path.extend_from_slice(name)?;
    Ok(Bytes::from(path))
}
