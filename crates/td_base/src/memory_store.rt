ghost use Rattle.std.specs.Prelude.{◌≡◌, [], ℕ, List, Some, OnOk, OnErr, if◌then◌else◌};
ghost use Rattle.std.specs.Option.{option_map};
ghost use Rattle.std.specs.Str.{bytes_eq};
ghost use Rattle.td_base.specs.Views.{file_at};
ghost use Rattle.td_base.specs.Memory.{IsPrefixRead};

use crate::{Bytes, FileRead, NoMemory, Store};
use std::alloc::Global;
use std::collections::BTreeMap;
use std::marker::Model;

/// A store in memory. Contracts see its files, and it never fails.
#[derive(Drop)]
pub struct MemoryStore {
    files: BTreeMap<Vec<u8>, Bytes>,
}

impl Model for MemoryStore {
    ghost use Rattle.std.specs.Prelude.{List};
    ghost use Rattle.td_base.specs.Views.{File};
    ghost use Rattle.td_base.specs.Stored.{files_of};

    ghost Value = { List File };

    ghost view = { λ s. files_of s.files.entries };
}

impl MemoryStore {
    /// An empty store.
    pub fn new(alloc: Global) -> MemoryStore
        ensures { result ≡ [] }
    {
        MemoryStore {
            files: BTreeMap::new(alloc),
        }
    }

    /// Adds a path, or replaces the bytes of an existing one.
    pub fn put(&mut self, path: Bytes, bytes: Bytes) -> Result<(), NoMemory>
        ensures ok { OnOk result ((asked : List ℕ) → file_at self.new asked
            ≡ (if bytes_eq path asked then Some bytes else file_at self.old asked)) }
        ensures err { OnErr result (self.new ≡ self.old) }
    {
        let _ = self.files.insert(path.into_vec(), bytes)?;
        Ok(())
    }

    /// The bytes of the file of a path.
    fn find(&self, path: &[u8]) -> Option<&[u8]>
        ensures { option_map (λ b. b.now) result ≡ file_at self.now path.now }
    {
        match self.files.get(path) {
            Some(bytes) => Some(bytes.as_slice()),
            None => None,
        }
    }
}

impl Store for MemoryStore {
    ghost seen = { λ s. record { files = Some s; faults = 0 } };

    fn read_file(&mut self, alloc: Global, path: &[u8], most: u64) -> FileRead {
        match self.find(path) {
            Some(bytes) => read_prefix(alloc, bytes, most),
            None => FileRead::Absent,
        }
    }
}

/// The first `most` bytes, as the result of a read.
fn read_prefix(alloc: Global, bytes: &[u8], most: u64) -> FileRead
    ensures { IsPrefixRead bytes.now most result }
{
    let count = bytes.len().min(most as usize);
    match Bytes::from_slice(alloc, &bytes[..count]) {
        Ok(prefix) => FileRead::Found(prefix),
        Err(NoMemory) => FileRead::NoMemory,
    }
}
