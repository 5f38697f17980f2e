//! Folders one after another, each checked against those before it.
ghost use Rattle.catalogue.specs.Releases.{release_data};
ghost use Rattle.zone_meaning.specs.Sound.{IsSound};
ghost use Rattle.zone_meaning.specs.ZoneHistories.{zone_bytes};
ghost use Rattle.release_check.specs.Before.{Follows, before_held};

use case_lines::{Answer, AnswerBuilder, CaseFault, Row};
use catalogue::{Catalogue, Release};
use release_check::{CheckFault, check};
use std::alloc::Global;
use td_base::{Bytes, MemoryStore, NoMemory};
use zone_meaning::Zone;

/// `history DIR ..`: for each folder in turn, how many zones it has, or its fault.
pub fn as_line(alloc: Global, row: &Row, store: &mut MemoryStore) -> Answer {
    let mut builder = AnswerBuilder::new(alloc);
    let mut last = None;
    for dir in row.words() {
        last = step(alloc, dir.as_slice(), store, last, &mut builder);
    }
    builder.finish()
}

/// `again DIR COUNT`: the answer for a folder that has been the next release COUNT times.
pub fn again(alloc: Global, row: &Row, store: &mut MemoryStore) -> Answer {
    let (dir, count) = (row.word(0)?, row.number(1)?);
    let mut builder = AnswerBuilder::new(alloc);
    let last = repeat(alloc, dir, count, store, &mut builder);
    let _ = step(alloc, dir, store, last, &mut builder);
    builder.finish()
}

/// The catalogue after a folder has been the next release so many times. It reports only that
/// memory ran out.
fn repeat(
    alloc: Global,
    dir: &[u8],
    count: u64,
    store: &mut MemoryStore,
    builder: &mut AnswerBuilder,
) -> Option<Catalogue<Zone>> {
    let mut ignored = AnswerBuilder::new(alloc);
    let mut last = None;
    for _ in 0..count {
        last = step(alloc, dir, store, last, &mut ignored);
    }
    if let Err(fault) = ignored.finish() {
        builder.fail(fault);
    }
    last
}

/// The catalogue of a history of folders, separated by commas, none of which is refused.
pub fn catalogue_of(
    alloc: Global,
    dirs: &[u8],
    store: &mut MemoryStore,
) -> Result<Catalogue<Zone>, CaseFault> {
    let mut builder = AnswerBuilder::new(alloc);
    let mut last = None;
    for dir in dirs.split(|byte| *byte == b',') {
        last = step(alloc, dir, store, last, &mut builder);
    }
    builder.finish()?;
    last.ok_or(CaseFault::Strange)
}

/// Checks a folder after a catalogue, and appends how many zones it has, or its fault. The fault's
/// `Display` text is appended too if it differs from the printed bytes. The result is the catalogue
/// with the folder's release, if it has one.
fn step(
    alloc: Global,
    dir: &[u8],
    store: &mut MemoryStore,
    last: Option<Catalogue<Zone>>,
    builder: &mut AnswerBuilder,
) -> Option<Catalogue<Zone>> {
    match check(alloc, dir, store, last.as_ref()) {
        Ok(release) => {
            add_count(builder, release.zones.len());
            catalogue_in(extend(alloc, last, release), builder)
        }
        Err(fault) => {
            add_fault(alloc, builder, &fault);
            last
        }
    }
}

/// A catalogue, if memory sufficed for it.
fn catalogue_in(
    grown: Result<Catalogue<Zone>, NoMemory>,
    builder: &mut AnswerBuilder,
) -> Option<Catalogue<Zone>> {
    match grown {
        Ok(catalogue) => Some(catalogue),
        Err(NoMemory) => {
            builder.fail(CaseFault::NoMemory);
            None
        }
    }
}

fn add_count(builder: &mut AnswerBuilder, zones: usize) {
    builder.add_bytes(b"ok ");
    builder.add_display(&zones);
    builder.add_bytes(b";");
}

fn add_fault(alloc: Global, builder: &mut AnswerBuilder, fault: &CheckFault) {
    let mut printed = Bytes::new(alloc);
    builder.add_outcome(fault.put(alloc, &mut printed));
    builder.add_bytes(printed.as_slice());
    add_shown(alloc, builder, fault, printed.as_slice());
    builder.add_bytes(b";");
}

/// Appends the `Display` text of a fault, if it differs from the printed one.
fn add_shown(alloc: Global, builder: &mut AnswerBuilder, fault: &CheckFault, printed: &[u8]) {
    match fault.to_string(alloc) {
        Ok(shown) => {
            if shown.as_bytes() != printed {
                builder.add_bytes(b", ");
                builder.add_bytes(shown.as_bytes());
            }
        }
        Err(_) => builder.fail(CaseFault::NoMemory),
    }
}

/// The catalogue extended by one release.
fn extend(
    alloc: Global,
    last: Option<Catalogue<Zone>>,
    release: Release<Zone>,
) -> Result<Catalogue<Zone>, NoMemory>
    requires sound { IsSound (release_data zone_bytes release) }
    requires follows { Follows (before_held last) (release_data zone_bytes release) }
{
    match last {
        None => Catalogue::first(alloc, release),
        Some(last) => last.next(alloc, release),
    }
}
