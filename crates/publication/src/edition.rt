ghost use Rattle.std.specs.Prelude.{◌≡◌, length, None, Some, IfOk};
ghost use Rattle.std.specs.List.{last_or};
ghost use Rattle.std.specs.Arc.{arc_value};
ghost use Rattle.publication.specs.Histories.{values, ended_in};

use crate::history::Prefix;
use std::alloc::AllocError;
use std::sync::Arc;
use td_base::Value;

/// What is shown to the desks: a value, the history up to it, its place there, counted from 1, and
/// whether the history has ended.
#[derive(Drop)]
pub struct Edition<V: Value> {
    pub value: Arc<V>,
    pub prefix: Prefix<V>,
    pub number: u32,
    pub ended: bool,
    ghost is_last: { last_or None (values prefix.log) ≡ Some (arc_value value) },
    ghost numbered: { number ≡ length (values prefix.log) },
    ghost marked: { ended ≡ ended_in prefix.log },
}

impl<V: Value> Edition<V> {
    /// An edition of the last value of a history.
    pub fn of_last(value: Arc<V>, prefix: &Prefix<V>, number: u32, ended: bool) -> Edition<V>
        requires last { last_or None (values prefix.now.log) ≡ Some (arc_value value) }
        requires number { number ≡ length (values prefix.now.log) }
        requires ended { ended_in prefix.now.log ≡ ended }
        ensures { (result.prefix ≡ prefix.now) × (arc_value result.value ≡ arc_value value) }
    {
        Edition {
            value,
            prefix: prefix.again(),
            number,
            ended,
        }
    }

    /// A copy. It does not allocate, and is refused if the value has too many owners.
    pub fn again(&self) -> Result<Edition<V>, AllocError>
        ensures value { IfOk result (λ i. arc_value i.value ≡ arc_value self.now.value) }
        ensures rest { IfOk result (λ i. (i.prefix ≡ self.now.prefix)
            × (i.number ≡ self.now.number) × (i.ended ≡ self.now.ended)) }
    {
        Ok(Edition {
            value: Arc::try_clone(&self.value)?,
            prefix: self.prefix.again(),
            number: self.number,
            ended: self.ended,
        })
    }
}
