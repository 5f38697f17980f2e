//! What a folder changes in the last release of a history.
use admission::{Changed, Delta, delta_of};
use case_lines::{Answer, AnswerBuilder, Row, display_text};
use catalogue::{Catalogue, Release};
use release_check::check;
use std::alloc::Global;
use td_base::MemoryStore;
use zone_meaning::Zone;

/// `changed DIRS DIR`: the zones that a folder changes in the last release of a history. Each has
/// the moment from which it differs from what its identifier stood for, if it does.
pub fn changes_in(
    alloc: Global,
    row: &Row,
    store: &mut MemoryStore,
    last: &Catalogue<Zone>,
) -> Answer {
    match check(alloc, row.word(1)?, store, Some(last)) {
        Ok(release) => delta_line(alloc, last, &release),
        Err(fault) => display_text(alloc, &fault),
    }
}

fn delta_line(alloc: Global, last: &Catalogue<Zone>, next: &Release<Zone>) -> Answer {
    let delta = delta_of(alloc, last, next)?;
    as_line(alloc, &delta)
}

fn as_line(alloc: Global, delta: &Delta) -> Answer {
    let mut builder = AnswerBuilder::new(alloc);
    for change in delta.changed.as_slice() {
        add_change(&mut builder, change);
    }
    builder.finish()
}

fn add_change(builder: &mut AnswerBuilder, change: &Changed) {
    builder.add_bytes(change.tzid.as_slice());
    if let Some(first) = change.first {
        builder.add_bytes(b"@");
        builder.add_display(&first.seconds);
    }
    builder.add_bytes(b";");
}
