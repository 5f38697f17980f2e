//! The answer to a row, by its kind.
use crate::{catalogues, fault_texts, histories, indexes, leap_tables, manifests, values};
use case_lines::{Answer, CaseFault, Row};
use std::alloc::Global;
use td_base::{Bytes, MemoryStore};

/// The answer to a row. The files of its folders are in the store.
pub fn answer(alloc: Global, row: &Row, store: &mut MemoryStore) -> Answer {
    match row.kind() {
        "file" => put(alloc, row, store),
        "examine" => values::examine_values(alloc, row, store),
        "history" => histories::as_line(alloc, row, store),
        "again" => histories::again(alloc, row, store),
        "manifest" => manifests::read_back(alloc, row),
        "printed" => fault_texts::fault_text(alloc, row),
        "leap-table" => leap_tables::table(alloc, row),
        "after" => indexes::after(alloc, row),
        "positions-after" => indexes::positions(alloc, row),
        _ => catalogues::answer(alloc, row, store),
    }
}

/// `file PATH TEXT` puts a file into the store.
fn put(alloc: Global, row: &Row, store: &mut MemoryStore) -> Answer {
    let [path, bytes, ..] = row.words() else {
        return strange();
    };
    let path = Bytes::from_slice(alloc, path.as_slice())?;
    let bytes = Bytes::from_slice(alloc, bytes.as_slice())?;
    store.put(path, bytes)?;
    Ok(Vec::new(alloc))
}

/// Calls the laws of these crates, each of which does nothing.
pub fn laws() {
    release_manifest::one_meaning();
    release_manifest::one_reading();
    leap_table::steps_are_dated();
    leap_table::dates_are_plain();
    release_check::one_folder();
    release_check::fitting_release();
    release_check::held_before();
    catalogues::laws();
}

/// A word that no case has.
pub fn strange<T>() -> Result<T, CaseFault> {
    Err(CaseFault::Strange)
}
