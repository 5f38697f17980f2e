//! Manifests that are already parsed.
use case_lines::{Answer, CaseFault, Row};
use release_check::{CheckFault, examine};
use release_manifest::{Manifest, ManifestLeaps};
use std::alloc::Global;
use td_base::{Bytes, Items, MemoryStore, NoMemory};
use td_civil::Moment;

/// `examine PUBLISHER VERSION SECONDS EXPIRES`: the answer for a release without zones, with the
/// table of leap seconds of the folder `with-leap`.
pub fn examine_values(alloc: Global, row: &Row, store: &mut MemoryStore) -> Answer {
    let manifest = value(alloc, row)?;
    as_line(alloc, &manifest, store)
}

fn as_line(alloc: Global, manifest: &Manifest, store: &mut MemoryStore) -> Answer {
    match examine(alloc, manifest, b"with-leap", store, None) {
        Ok(_release) => Ok(Vec::from_slice(alloc, b"ok")?),
        Err(fault) => fault_line(alloc, &fault),
    }
}

fn fault_line(alloc: Global, fault: &CheckFault) -> Answer {
    let mut out = Bytes::new(alloc);
    fault.put(alloc, &mut out)?;
    Ok(out.into_vec())
}

fn value(alloc: Global, row: &Row) -> Result<Manifest, CaseFault> {
    let (seconds, publisher, version) = (row.signed_number(2)?, row.word(0)?, row.word(1)?);
    let leaps = leaps(alloc, row.word(3)?)?;
    let publisher = Bytes::from_slice(alloc, publisher)?;
    let version = Bytes::from_slice(alloc, version)?;
    Ok(Manifest {
        publisher,
        version,
        stamp: Moment { seconds },
        zones: Items::new(alloc),
        leaps: Some(leaps),
    })
}

fn leaps(alloc: Global, expires: &[u8]) -> Result<ManifestLeaps, NoMemory> {
    let file = Bytes::from_slice(alloc, b"leap")?;
    let expires = Bytes::from_slice(alloc, expires)?;
    Ok(ManifestLeaps { file, expires })
}
