ghost use Rattle.std.specs.Prelude.{◌≡◌, ◌++◌, IfOk, OnOk, IfSome};
ghost use Rattle.td_civil.specs.Bounds.{IsWithinBounds};
ghost use Rattle.actions.specs.Bounds.{AreBounds, end_if_any};
ghost use Rattle.actions.specs.Tags as tags;

use crate::bounds::{Bound, Bounds};
use std::alloc::Global;
use td_base::{Bytes, NoMemory};
use td_civil::utc_text;

/// The entity tag of a zone's data between two bounds. It is made of the tag of the zone's content,
/// the mark of the format, and the bounds unless both are open.
#[tactic(auto, unfolding(crate::specs::Tags::data_tag))]
pub fn data_tag(alloc: Global, tag: &[u8], mark: &[u8], bounds: Bounds) -> Result<Bytes, NoMemory>
    requires { AreBounds bounds }
    ensures { IfOk result (λ text. text ≡ tags.data_tag tag.now mark.now bounds) }
{
    let mut text = Bytes::from_slice(alloc, b"\"")?;
    text.append(tag)?;
    text.append(b".")?;
    text.append(mark)?;
    append_bounds(&mut text, bounds.start, bounds.end)?;
    text.append(b"\"")?;
    Ok(text)
}

/// Appends both bounds, unless both are open.
fn append_bounds(text: &mut Bytes, start: Bound, end: Bound) -> Result<(), NoMemory>
    requires start { IfSome (end_if_any start) (λ m. IsWithinBounds m.seconds) }
    requires end { IfSome (end_if_any end) (λ m. IsWithinBounds m.seconds) }
    ensures { OnOk result (text.new ≡ text.old ++ tags.bounds_text start end) }
{
    if let (Bound::Open, Bound::Open) = (start, end) {
        return Ok(());
    }
    append_after_point(text, start)?;
    append_after_point(text, end)?;
    Ok(())
}

#[tactic(auto, unfolding(crate::specs::Tags::after_point))]
fn append_after_point(text: &mut Bytes, bound: Bound) -> Result<(), NoMemory>
    requires { IfSome (end_if_any bound) (λ m. IsWithinBounds m.seconds) }
    ensures { OnOk result (text.new ≡ text.old ++ tags.after_point bound) }
{
    text.append(b".")?;
    match bound {
        Bound::Open => text.append(b"-")?,
        Bound::At(moment) => text.append(&utc_text(moment))?,
    }
    Ok(())
}
