ghost use Rattle.std.specs.Prelude.{◌≡◌, IfOk};

use std::alloc::Global;
use td_base::{Bytes, Items, NoMemory};

/// A copy of a list of texts.
pub fn copy_texts(alloc: Global, texts: &[Bytes]) -> Result<Items<Bytes>, NoMemory>
    ensures { IfOk result (λ copy. copy ≡ texts.now) }
{
    let mut copy = Items::new(alloc);
    for text in texts {
        copy.push(Bytes::from_slice(alloc, text.as_slice())?)?;
    }
    Ok(copy)
}
