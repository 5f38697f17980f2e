//! The catalogue of a history of folders. Each row begins with the folders, separated by commas.
use crate::answering::strange;
use crate::histories::catalogue_of;
use crate::leap_tables::steps;
use crate::{changes, indexes};
use case_lines::{Answer, AnswerBuilder, CaseFault, Row, debug_text};
use catalogue::{
    Catalogue, Entry, KEPT_TOKENS, entries_are_plain, fits_what_is_held, histories_grow,
    order_is_free, tokens_are_apart, tokens_are_plain, tokens_find_places,
};
use std::alloc::Global;
use td_base::MemoryStore;
use zone_meaning::{Zone, file};

/// The answer of a catalogue.
pub fn answer(alloc: Global, row: &Row, store: &mut MemoryStore) -> Answer {
    let catalogue = catalogue_of(alloc, row.word(0)?, store)?;
    as_line(alloc, row, store, &catalogue)
}

fn as_line(
    alloc: Global,
    row: &Row,
    store: &mut MemoryStore,
    catalogue: &Catalogue<Zone>,
) -> Answer {
    match row.kind() {
        "changed" => changes::changes_in(alloc, row, store, catalogue),
        "stands" => stands(alloc, catalogue),
        "leaps" => leaps(alloc, catalogue),
        "find-name" => debug_text(alloc, &catalogue.find_name(row.word(1)?)),
        "place-of" => debug_text(alloc, &catalogue.place_of(row.word(1)?)),
        "changed-since" => changes_since(alloc, row, catalogue),
        "token" => token(alloc, row, catalogue),
        "entry" => entry(alloc, row, catalogue),
        "name" => name(alloc, row, catalogue),
        _ => strange(),
    }
}

/// `stands DIRS`: how many releases, zones and names it has, and the stamp, publisher and version
/// of the last release.
fn stands(alloc: Global, catalogue: &Catalogue<Zone>) -> Answer {
    let mut builder = AnswerBuilder::new(alloc);
    add_counts(&mut builder, catalogue);
    builder.add_display(&catalogue.last_stamp().seconds);
    builder.add_bytes(b" ");
    builder.add_bytes(catalogue.publisher());
    builder.add_bytes(b" ");
    builder.add_bytes(catalogue.version());
    builder.finish()
}

fn add_counts(builder: &mut AnswerBuilder, catalogue: &Catalogue<Zone>) {
    builder.add_display(&catalogue.count());
    builder.add_bytes(b" ");
    builder.add_display(&catalogue.len());
    builder.add_bytes(b" ");
    builder.add_display(&catalogue.name_count());
    builder.add_bytes(b" ");
}

/// `leaps DIRS`: expiry, length of the file and steps of its table, if it has one.
fn leaps(alloc: Global, catalogue: &Catalogue<Zone>) -> Answer {
    match catalogue.leaps() {
        Some(table) => steps(alloc, table),
        None => Ok(Vec::from_slice(alloc, b"none")?),
    }
}

/// The place in a row.
fn place(row: &Row) -> Result<u32, CaseFault> {
    indexes::place(row.number(1)?)
}

/// `changed-since DIRS PLACE`: the positions of the zones that changed after a place.
fn changes_since(alloc: Global, row: &Row, catalogue: &Catalogue<Zone>) -> Answer {
    let changed = catalogue.changed_since(alloc, place(row)?)?;
    debug_text(alloc, &changed.as_slice())
}

/// `token DIRS PLACE`.
fn token(alloc: Global, row: &Row, catalogue: &Catalogue<Zone>) -> Answer {
    let place = place(row)?;
    if place == 0 || catalogue.count() < place || catalogue.count() - place >= KEPT_TOKENS {
        return strange();
    }
    Ok(Vec::from_slice(alloc, catalogue.token(place).as_slice())?)
}

/// `name DIRS POSITION`.
fn name(alloc: Global, row: &Row, catalogue: &Catalogue<Zone>) -> Answer {
    let position = row.number(1)? as usize;
    if position >= catalogue.name_count() {
        return strange();
    }
    Ok(Vec::from_slice(alloc, catalogue.name(position))?)
}

/// `entry DIRS POSITION`: identifier and aliases, the length of the file, the tag, the place of the
/// last change, and the stamp, publisher and version of that release.
fn entry(alloc: Global, row: &Row, catalogue: &Catalogue<Zone>) -> Answer {
    let position = row.number(1)? as usize;
    if position >= catalogue.len() {
        return strange();
    }
    entry_text(alloc, catalogue.entry(position))
}

fn entry_text(alloc: Global, entry: &Entry<Zone>) -> Answer {
    let mut builder = AnswerBuilder::new(alloc);
    add_names(&mut builder, entry);
    add_file(&mut builder, entry);
    add_change(&mut builder, entry);
    builder.finish()
}

fn add_names(builder: &mut AnswerBuilder, entry: &Entry<Zone>) {
    builder.add_bytes(entry.content.tzid.as_slice());
    for alias in entry.content.aliases.as_slice() {
        builder.add_bytes(b",");
        builder.add_bytes(alias.as_slice());
    }
}

fn add_file(builder: &mut AnswerBuilder, entry: &Entry<Zone>) {
    builder.add_bytes(b" ");
    builder.add_display(&file(&entry.content.zone).len());
    builder.add_bytes(b" ");
    builder.add_bytes(entry.tag.as_slice());
}

fn add_change(builder: &mut AnswerBuilder, entry: &Entry<Zone>) {
    builder.add_bytes(b" ");
    builder.add_display(&entry.changed);
    builder.add_bytes(b" ");
    builder.add_display(&entry.stamp.seconds);
    builder.add_bytes(b" ");
    builder.add_bytes(entry.publisher.as_slice());
    builder.add_bytes(b" ");
    builder.add_bytes(entry.version.as_slice());
}

/// Laws, each of which does nothing.
pub fn laws() {
    order_is_free::<Zone>();
    entries_are_plain::<Zone>();
    fits_what_is_held::<Zone>();
    histories_grow::<Zone>();
    tokens_are_plain();
    tokens_are_apart();
    tokens_find_places();
}
