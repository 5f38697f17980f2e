//! The files of a mirror as a store that a release is checked from.
ghost use Rattle.std.specs.Prelude.{◌≡◌, IfOk, IfSome, Some, option_copied};
ghost use Rattle.td_base.specs.Memory.{IsPrefixRead};
ghost use Rattle.td_base.specs.Views.{file_at};
ghost use Rattle.sync_core.specs.Mirrors.{files_kept};
ghost use Rattle.sync_core.specs.Published.{HasFiles};

use std::alloc::Global;
use std::collections::BTreeMap;
use std::collections::btree_map::Iter;
use std::marker::Model;
use td_base::{Bytes, FileRead, NoMemory, Store};

/// The files that a mirror keeps, each under the identifier of its zone. It borrows them, so that
/// only the file that is being read is held twice. They are mostly read in their order, so the next
/// one is looked at before all are searched.
#[derive(Drop)]
pub struct MirrorFiles<'m> {
    files: &'m BTreeMap<Bytes, Bytes>,
    /// Those after the one that was read last.
    rest: Iter<'m, Bytes, Bytes>,
}

impl<'m> Model for MirrorFiles<'m> {
    ghost use Rattle.std.specs.Prelude.{◌≡◌, List, Some, map};
    ghost use Rattle.std.specs.BTreeMap.{get};
    ghost use Rattle.std.specs.Cmp.Lexicographic.{slice_cmp};
    ghost use Rattle.std.specs.List.{All};
    ghost use Rattle.std.specs.Ordering.{nat_cmp};
    ghost use Rattle.td_base.specs.Views.{File};
    ghost use Rattle.sync_core.specs.Mirrors.{files_kept};
    ghost use Rattle.sync_core.specs.Published.{stored_file};

    ghost Value = { List File };

    ghost view = { λ s. map stored_file (files_kept s.files.now.entries) };

    ghost invariant = { λ s.
        All (λ e. get (slice_cmp nat_cmp) s.files.now e.0 ≡ Some e.1) s.rest };
}

impl<'m> MirrorFiles<'m> {
    /// The store of these files.
    #[tactic(auto, using(crate::proofs::Kept::files_stored))]
    pub(crate) fn new(files: &'m BTreeMap<Bytes, Bytes>) -> MirrorFiles<'m>
        ensures { HasFiles result (files_kept files.now.entries) }
    {
        MirrorFiles {
            files,
            rest: files.iter(),
        }
    }

    /// The bytes of the file with this name.
    fn find(&mut self, alloc: Global, name: &[u8]) -> Result<Option<&'m Bytes>, NoMemory>
        ensures found { IfOk result (λ found. option_copied found ≡ file_at self.old name.now) }
        ensures same { self.new ≡ self.old }
    {
        if let Some(bytes) = self.take_next(name) {
            return Ok(Some(bytes));
        }
        self.rest = self.files.iter();
        if let Some(bytes) = self.take_next(name) {
            return Ok(Some(bytes));
        }
        self.search(alloc, name)
    }

    /// The bytes of the next file, if that has this name.
    #[tactic(auto, using(crate::proofs::Kept::file_found, crate::proofs::Kept::files_stored))]
    fn take_next(&mut self, name: &[u8]) -> Option<&'m Bytes>
        ensures found { IfSome result (λ bytes. file_at self.old name.now ≡ Some bytes.now) }
        ensures same { self.new ≡ self.old }
    {
        let (next, bytes) = self.rest.next()?;
        if next.as_slice() != name {
            return None;
        }
        Some(bytes)
    }

    /// The bytes of the file with this name, of all.
    #[tactic(auto, using(crate::proofs::Kept::file_found, crate::proofs::Kept::files_stored))]
    fn search(&self, alloc: Global, name: &[u8]) -> Result<Option<&'m Bytes>, NoMemory>
        ensures { IfOk result (λ found. option_copied found ≡ file_at self.now name.now) }
    {
        let name = Bytes::from_slice(alloc, name)?;
        Ok(self.files.get(&name))
    }
}

impl<'m> Store for MirrorFiles<'m> {
    ghost use Rattle.std.specs.Prelude.{Some};

    ghost seen = { λ s. record { files = Some s; faults = 0 } };

    fn read_file(&mut self, alloc: Global, path: &[u8], most: u64) -> FileRead {
        match self.find(alloc, path) {
            Ok(Some(bytes)) => read_prefix(alloc, bytes, most),
            Ok(None) => FileRead::Absent,
            Err(NoMemory) => FileRead::NoMemory,
        }
    }
}

/// The first `most` bytes, as the result of a read.
fn read_prefix(alloc: Global, bytes: &Bytes, most: u64) -> FileRead
    ensures { IsPrefixRead bytes.now most result }
{
    let count = bytes.len().min(most as usize);
    match Bytes::from_slice(alloc, &bytes.as_slice()[..count]) {
        Ok(prefix) => FileRead::Found(prefix),
        Err(NoMemory) => FileRead::NoMemory,
    }
}
