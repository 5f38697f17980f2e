ghost use Rattle.std.specs.Prelude.{◌≡◌, IfOk};

use http_answer::Answer;
use std::alloc::Global;
use td_base::{Bytes, NoMemory};

/// A copy of the text, if there is one.
pub fn copy_of_field(alloc: Global, field: &Option<Bytes>) -> Result<Option<Bytes>, NoMemory>
    ensures { IfOk result (λ copy. copy ≡ field.now) }
{
    match field {
        Some(text) => Ok(Some(text.clone_in(alloc)?)),
        None => Ok(None),
    }
}

/// A copy of the answer.
pub fn copy_of_answer(alloc: Global, answer: &Answer) -> Result<Answer, NoMemory>
    ensures { IfOk result (λ copy. copy ≡ answer.now) }
{
    Ok(Answer {
        status: answer.status,
        kind: answer.kind,
        tag: copy_of_field(alloc, &answer.tag)?,
        moved: answer.moved,
        body: answer.body.clone_in(alloc)?,
    })
}
