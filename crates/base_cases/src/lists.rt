//! Owned bytes, lists and short texts.
use crate::given;
use case_lines::{Answer, AnswerBuilder, CaseFault, Row, debug_text};
use std::alloc::Global;
use td_base::{Bytes, Places, ShortText};

/// `bytes FIRST BYTE MORE LENGTH`: the first bytes, with a byte and more bytes appended, cut at a
/// length; and the resulting count.
pub fn bytes(alloc: Global, row: &Row) -> Answer {
    let mut list = given::bytes(alloc, row, 0)?;
    grow_and_cut(&mut list, row)?;
    let mut builder = AnswerBuilder::new(alloc);
    let len = list.len();
    builder.add_bytes(list.into_vec().as_slice());
    builder.add_bytes(b", ");
    builder.add_debug(&len);
    builder.finish()
}

/// Appends a byte and more bytes, and cuts at a length.
fn grow_and_cut(list: &mut Bytes, row: &Row) -> Result<(), CaseFault> {
    for byte in row.word(1)? {
        list.push(*byte)?;
    }
    list.append(row.word(2)?)?;
    list.truncate(row.number(3)? as usize);
    Ok(())
}

/// `compare BYTES BYTES`: how the first bytes compare to the second. Also whether the first are
/// empty, and whether their copy and the value made from their `Vec` equal them.
pub fn compare(alloc: Global, row: &Row) -> Answer {
    let first = given::bytes(alloc, row, 0)?;
    let second = given::bytes(alloc, row, 1)?;
    let copy = first.clone_in(alloc)?;
    comparison(alloc, &first, &second, copy)
}

fn comparison(alloc: Global, first: &Bytes, second: &Bytes, copy: Bytes) -> Answer {
    let (order, is_equal) = (first.cmp(second), first == second);
    let (is_empty, is_copied) = (first.is_empty(), copy == *first);
    let is_back = Bytes::from(copy.into_vec()) == *first;
    let text = format!(in alloc; "{order:?}, {is_equal}, {is_empty}, {is_copied}, {is_back}")?;
    Ok(text.into_bytes())
}

/// `items NUMBERS NUMBER`: the numbers with one more, their count, and the count in the `Vec`.
pub fn items(alloc: Global, row: &Row) -> Answer {
    let more = row.number(1)?;
    let mut items = given::calls(alloc, row, 0)?;
    items.push(more)?;
    let mut builder = AnswerBuilder::new(alloc);
    builder.add_debug(&items.as_slice());
    builder.add_bytes(b", ");
    builder.add_debug(&items.len());
    builder.add_bytes(b", ");
    builder.add_debug(&items.into_vec().len());
    builder.finish()
}

/// `short TEXT TEXT`: the copy of a short text of the two, and whether it equals the original.
pub fn short(alloc: Global, row: &Row) -> Answer {
    let (first, second) = (row.word(0)?, row.word(1)?);
    if first.len() > 2 || second.len() > 2 {
        return Err(CaseFault::Strange);
    }
    let mut text = ShortText::<4>::new();
    text.append(first);
    text.append(second);
    let copy = text.copy();
    let mut builder = AnswerBuilder::new(alloc);
    builder.add_bytes(copy.as_slice());
    builder.add_bytes(b", ");
    builder.add_debug(&(copy == text));
    builder.finish()
}

/// `places NUMBER NUMBER`: the places of a report.
pub fn places(alloc: Global, row: &Row) -> Answer {
    let (first, second) = (given::small(row, 0)?, given::small(row, 1)?);
    let mut places = Places::new(alloc);
    places.push(first)?;
    places.push(second)?;
    debug_text(alloc, &places.as_slice())
}
