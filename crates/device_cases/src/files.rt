//! Files of the system.
use case_lines::{Answer, AnswerBuilder, CaseFault, Row};
use devices::RealStore;
use std::alloc::Global;
use std::rt::Files;
use td_base::{FileRead, Store};

/// `file MOST PATH`: how many bytes of the file the store found, of at most MOST, or how it
/// refused. Then why the look failed, if it did.
pub fn file<R: Files>(rt: &R, alloc: Global, row: &Row) -> Answer {
    let (most, path) = (row.number(0)?, row.word(1)?);
    let mut store = RealStore::new(rt);
    let mut builder = AnswerBuilder::new(alloc);
    add_found(&mut builder, store.read_file(alloc, path, most));
    builder.add_bytes(b" ");
    builder.add_debug(&store.failure().map(|failure| failure.kind));
    builder.finish()
}

/// Appends how many bytes were found, or how the store refused.
fn add_found(builder: &mut AnswerBuilder, found: FileRead) {
    match found {
        FileRead::Found(bytes) => {
            builder.add_bytes(b"Ok(");
            builder.add_debug(&bytes.len());
            builder.add_bytes(b")");
        }
        FileRead::Absent => builder.add_bytes(b"Err(\"absent\")"),
        FileRead::Failed => builder.add_bytes(b"Err(\"failed\")"),
        FileRead::NoMemory => builder.fail(CaseFault::NoMemory),
    }
}
