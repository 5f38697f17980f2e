//! The made load: its releases, its requests and the line of its counts.
use case_lines::{Answer, CaseFault, Row, debug_text};
use catalogue::Catalogue;
use folder_rows::{manifest_line, strange};
use installer::{InstallFault, first_stated, next_stated};
use made_load::{LoadCounts, release, requests, summary};
use release_manifest::Manifest;
use std::alloc::Global;
use td_base::{Bytes, FileRead, MemoryStore, Store, put_hex};
use zone_meaning::Zone;

/// The most bytes of a file that are read.
const MOST_BYTES: u64 = 4_096;

/// The answer to a row of a load.
pub fn as_line(alloc: Global, row: &Row) -> Answer {
    match row.kind() {
        "load-manifest" => manifest(alloc, row),
        "load-file" => file(alloc, row),
        "load-requests" => requests_after(alloc, row),
        "load-place-of" => places(alloc, row),
        "load-summary" => line(alloc, row),
        _ => strange(),
    }
}

/// `load-manifest NUMBER RELEASE`: the content of a release's manifest.
fn manifest(alloc: Global, row: &Row) -> Answer {
    let (manifest, _store) = release_of(alloc, small(row, 0)?, small(row, 1)?)?;
    manifest_line(alloc, &manifest)
}

/// `load-file NUMBER RELEASE PATH`: a file of a release, in hex digits, or `absent`.
fn file(alloc: Global, row: &Row) -> Answer {
    let (number, r, path) = (small(row, 0)?, small(row, 1)?, row.word(2)?);
    let (_manifest, mut store) = release_of(alloc, number, r)?;
    file_in(alloc, path, &mut store)
}

fn file_in(alloc: Global, path: &[u8], store: &mut MemoryStore) -> Answer {
    match store.read_file(alloc, path, MOST_BYTES) {
        FileRead::Found(bytes) => hex_of(alloc, bytes.as_slice()),
        FileRead::Absent => Ok(Vec::from_slice(alloc, b"absent")?),
        FileRead::Failed => strange(),
        FileRead::NoMemory => Err(CaseFault::NoMemory),
    }
}

fn hex_of(alloc: Global, bytes: &[u8]) -> Answer {
    let mut out = Bytes::new(alloc);
    put_hex(&mut out, bytes)?;
    Ok(out.into_vec())
}

/// `load-requests RELEASE`: the requests after a release.
fn requests_after(alloc: Global, row: &Row) -> Answer {
    let catalogue = last_made(alloc, small(row, 0)?)?;
    let asked = requests(alloc, &catalogue, catalogue.count())?;
    Ok(asked.into_vec())
}

/// `load-place-of NUMBER TEXT ..`: the places whose tokens the texts are, after NUMBER releases.
fn places(alloc: Global, row: &Row) -> Answer {
    let catalogue = last_made(alloc, small(row, 0)?)?;
    places_in(alloc, row, &catalogue)
}

fn places_in(alloc: Global, row: &Row, catalogue: &Catalogue<Zone>) -> Answer {
    let mut places = Vec::new(alloc);
    for token in row.words().get(1..).unwrap_or(&[]) {
        places.push(catalogue.place_of(token.as_slice()))?;
    }
    debug_text(alloc, &places.as_slice())
}

/// `load-summary RELEASES REQUESTS FINE UNCHANGED ENTRIES`: the line of these counts.
fn line(alloc: Global, row: &Row) -> Answer {
    let counts = LoadCounts {
        releases: small(row, 0)?,
        requests: small(row, 1)?,
        fine: small(row, 2)?,
        unchanged: small(row, 3)?,
        entries: small(row, 4)?,
    };
    let mut out = Bytes::new(alloc);
    summary(&mut out, &counts)?;
    Ok(out.into_vec())
}

/// The catalogue of the first releases of a load, this many.
fn last_made(alloc: Global, number: u32) -> Result<Catalogue<Zone>, CaseFault> {
    let mut last = first_made(alloc, number)?;
    for r in 2..number.saturating_add(1) {
        last = next_made(alloc, number, r, &last)?;
    }
    Ok(last)
}

fn first_made(alloc: Global, number: u32) -> Result<Catalogue<Zone>, CaseFault> {
    let (manifest, mut store) = release_of(alloc, number, 1)?;
    catalogue_in(first_stated(alloc, &manifest, &mut store))
}

fn next_made(
    alloc: Global,
    number: u32,
    r: u32,
    last: &Catalogue<Zone>,
) -> Result<Catalogue<Zone>, CaseFault> {
    let (manifest, mut store) = release_of(alloc, number, r)?;
    catalogue_in(next_stated(alloc, &manifest, &mut store, last))
}

/// The catalogue, if it could be made.
fn catalogue_in(made: Result<Catalogue<Zone>, InstallFault>) -> Result<Catalogue<Zone>, CaseFault> {
    match made {
        Ok(catalogue) => Ok(catalogue),
        Err(InstallFault::NoMemory) => Err(CaseFault::NoMemory),
        Err(_fault) => strange(),
    }
}

/// A release of a load, if the load has one of this number.
fn release_of(alloc: Global, n: u32, r: u32) -> Result<(Manifest, MemoryStore), CaseFault> {
    if r < 1 || n < r || 1_000 < n {
        return strange();
    }
    Ok(release(alloc, n, r)?)
}

/// The word at a position as a number of 32 bits.
fn small(row: &Row, at: usize) -> Result<u32, CaseFault> {
    let number = row.number(at)?;
    if number > u32::MAX as u64 {
        return strange();
    }
    Ok(number as u32)
}
