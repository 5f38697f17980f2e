//! A store in memory, some of whose calls fail.
use crate::given;
use case_lines::{Answer, AnswerBuilder, CaseFault, Row};
use std::alloc::Global;
use td_base::{Bytes, Faulty, FileRead, MemoryStore, Store, texts};

/// `store FILES FAILING PATH MOST`, with more paths and numbers: at most MOST bytes of each file.
/// The files are `PATH:TEXT`, separated by commas.
pub fn store(alloc: Global, row: &Row) -> Answer {
    let mut store = faulty(alloc, row)?;
    let mut builder = AnswerBuilder::new(alloc);
    for at in 1..row.words().len() / 2 {
        builder.add_answer(look(alloc, &mut store, row, at * 2));
    }
    builder.finish()
}

fn faulty(alloc: Global, row: &Row) -> Result<Faulty<MemoryStore>, CaseFault> {
    let failing = given::calls(alloc, row, 1)?;
    let mut store = MemoryStore::new(alloc);
    put_all(alloc, &mut store, row)?;
    Ok(Faulty::new(store, failing))
}

fn put_all(alloc: Global, store: &mut MemoryStore, row: &Row) -> Result<(), CaseFault> {
    for file in row.word(0)?.split(|byte| *byte == b',') {
        put(alloc, store, file)?;
    }
    Ok(())
}

/// Puts a file `PATH:TEXT` into a store.
fn put(alloc: Global, store: &mut MemoryStore, file: &[u8]) -> Result<(), CaseFault> {
    let (path, text) = texts::cut(file, b':');
    let path = Bytes::from_slice(alloc, path)?;
    let text = Bytes::from_slice(alloc, text.unwrap_or(&[]))?;
    Ok(store.put(path, text)?)
}

/// The result of the look whose path is at a position.
fn look<S: Store>(alloc: Global, store: &mut S, row: &Row, at: usize) -> Answer {
    let (path, most) = (row.word(at)?, row.number(at.saturating_add(1))?);
    match store.read_file(alloc, path, most) {
        FileRead::Found(prefix) => Ok(prefix.into_vec()),
        FileRead::Absent => case_lines::bytes(alloc, b"(absent)"),
        FileRead::Failed => case_lines::bytes(alloc, b"(failed)"),
        FileRead::NoMemory => Err(CaseFault::NoMemory),
    }
}
