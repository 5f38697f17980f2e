ghost use Rattle.std.specs.Prelude.{◌≡◌, IfOk};

use crate::copies::copy_of_field;
use std::alloc::Global;
use td_base::{Bytes, NoMemory};

/// What an answer depends on, for a server of one role. Nothing else in the head of a request
/// matters.
#[derive(Drop, PartialEq, Eq, Hash)]
pub struct Key {
    /// The number of releases in the history: the place of the newest one.
    pub place: u32,
    /// The request target, as it stands in the request line.
    pub target: Bytes,
    /// The values of the Accept fields, joined; None without such a field.
    pub accept: Option<Bytes>,
    /// The values of the If-None-Match fields, joined; None without such a field.
    pub none_match: Option<Bytes>,
}

impl Key {
    /// A copy, allocated by this allocator.
    pub fn clone_in(&self, alloc: Global) -> Result<Key, NoMemory>
        ensures { IfOk result (λ key. key ≡ self.now) }
    {
        Ok(Key {
            place: self.place,
            target: self.target.clone_in(alloc)?,
            accept: copy_of_field(alloc, &self.accept)?,
            none_match: copy_of_field(alloc, &self.none_match)?,
        })
    }
}
