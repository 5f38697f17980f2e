//! Installing manifests that are already parsed, and whether they are what is served. Their files
//! are in a folder of the store.
ghost use Rattle.std.specs.Prelude.{map};
ghost use Rattle.admission.specs.Rules.{KeepsAll};

use crate::rules::rules;
use admission::Kept;
use case_lines::{Answer, AnswerBuilder, CaseFault, Row, display_text};
use folder_rows::strange;
use installer::{InstallFault, InstallPolicy, Installer};
use release_manifest::{MOST_BYTES, Manifest, ManifestLeaps, ManifestZone, read};
use std::alloc::Global;
use std::mem::replace;
use std::sync::Wait;
use td_base::{Bytes, FileRead, Items, MemoryStore, NoMemory, Store};

/// `stated RULES DIR DIR DIR`: how many releases the history has after the first manifest, and
/// after the second and the third were installed under the rules. The fault of each, if any, is
/// printed first.
pub fn counts<R: Wait>(
    rt: &R,
    alloc: Global,
    row: &Row,
    store: &mut MemoryStore,
    kept: &[Kept],
    asked: &InstallPolicy<'_>,
) -> Answer
    requires { KeepsAll (map (λ k. k.kind) kept.now) }
{
    let asked = InstallPolicy::new(rules(alloc, kept, row.word(0)?)?, asked.wants);
    begin(rt, alloc, row, store, &asked)
}

/// Begins a history with the first manifest.
fn begin<R: Wait>(
    rt: &R,
    alloc: Global,
    row: &Row,
    store: &mut MemoryStore,
    asked: &InstallPolicy<'_>,
) -> Answer {
    let first = manifest_of(alloc, row.word(1)?, store)?;
    match first_installer(rt, alloc, &first, store) {
        Ok(installer) => {
            let mut installer = installer;
            let answer = install_rest(rt, alloc, row, store, &mut installer, asked);
            installer.close(rt);
            answer
        }
        Err(fault) => display_text(alloc, &fault),
    }
}

/// An installer that begins with a manifest, and has no desk.
fn first_installer<R: Wait>(
    rt: &R,
    alloc: Global,
    manifest: &Manifest,
    store: &mut MemoryStore,
) -> Result<Installer, InstallFault> {
    let (installer, desks) = Installer::open_manifest(rt, alloc, manifest, store, 1)?;
    drop(desks);
    Ok(installer)
}

/// Installs the second and the third manifest.
fn install_rest<R: Wait>(
    rt: &R,
    alloc: Global,
    row: &Row,
    store: &mut MemoryStore,
    installer: &mut Installer,
    asked: &InstallPolicy<'_>,
) -> Answer {
    let mut builder = AnswerBuilder::new(alloc);
    add_count(&mut builder, installer);
    for at in 2..4 {
        match fault_of(rt, alloc, row, at, store, installer, asked) {
            Ok(fault) => add_after(&mut builder, fault, installer),
            Err(fault) => builder.fail(fault),
        }
    }
    builder.finish()
}

/// The fault of installing a manifest, if it has one.
fn fault_of<R: Wait>(
    rt: &R,
    alloc: Global,
    row: &Row,
    at: usize,
    store: &mut MemoryStore,
    installer: &mut Installer,
    asked: &InstallPolicy<'_>,
) -> Result<Option<InstallFault>, CaseFault> {
    let manifest = manifest_of(alloc, row.word(at)?, store)?;
    let installed = installer.install_manifest(rt, alloc, &manifest, store, asked);
    Ok(installed.err())
}

/// Appends how many releases the history has after a step, which may have had a fault.
pub fn add_after(builder: &mut AnswerBuilder, fault: Option<InstallFault>, installer: &Installer) {
    if let Some(fault) = fault {
        builder.add_display(&fault);
        builder.add_bytes(b" ");
    }
    add_count(builder, installer);
}

/// Appends how many releases the history has.
pub fn add_count(builder: &mut AnswerBuilder, installer: &Installer) {
    builder.add_display(&installer.last().count());
    builder.add_bytes(b";");
}

/// `serves DIR TEXT`: whether a history that begins with the manifest of a folder serves the
/// manifest in a text, over the files of the folder.
pub fn serves<R: Wait>(rt: &R, alloc: Global, row: &Row, store: &mut MemoryStore) -> Answer {
    let asked = manifest_in(alloc, row.word(0)?, row.word(1)?)?;
    serves_manifest(rt, alloc, row.word(0)?, &asked, store)
}

fn serves_manifest<R: Wait>(
    rt: &R,
    alloc: Global,
    dir: &[u8],
    asked: &Manifest,
    store: &mut MemoryStore,
) -> Answer {
    let first = manifest_of(alloc, dir, store)?;
    match first_installer(rt, alloc, &first, store) {
        Ok(installer) => {
            let answer = installer.last_matches(alloc, asked, store);
            installer.close(rt);
            as_line(alloc, answer)
        }
        Err(fault) => display_text(alloc, &fault),
    }
}

fn as_line(alloc: Global, answer: Result<bool, InstallFault>) -> Answer {
    match answer {
        Ok(served) => display_text(alloc, &served),
        Err(fault) => display_text(alloc, &fault),
    }
}

/// The manifest of a folder.
fn manifest_of(alloc: Global, dir: &[u8], store: &mut MemoryStore) -> Result<Manifest, CaseFault> {
    let path = path_in(alloc, dir, b"manifest.json")?;
    match store.read_file(alloc, path.as_slice(), MOST_BYTES as u64) {
        FileRead::Found(text) => manifest_in(alloc, dir, text.as_slice()),
        _ => strange(),
    }
}

/// The manifest in a text, with the paths of its files in a folder.
fn manifest_in(alloc: Global, dir: &[u8], text: &[u8]) -> Result<Manifest, CaseFault> {
    match read(alloc, text) {
        Ok(manifest) => Ok(in_folder(alloc, dir, manifest)?),
        Err(_fault) => strange(),
    }
}

fn in_folder(alloc: Global, dir: &[u8], manifest: Manifest) -> Result<Manifest, NoMemory> {
    let mut manifest = manifest;
    place_files(alloc, dir, &mut manifest)?;
    Ok(manifest)
}

fn place_files(alloc: Global, dir: &[u8], manifest: &mut Manifest) -> Result<(), NoMemory> {
    place_zones(alloc, dir, &mut manifest.zones)?;
    place_leaps(alloc, dir, &mut manifest.leaps)
}

/// Puts the files of zones in a folder.
fn place_zones(alloc: Global, dir: &[u8], zones: &mut Items<ManifestZone>) -> Result<(), NoMemory> {
    let mut all = replace(zones, Items::new(alloc)).into_vec();
    let placed = place_each(alloc, dir, all.as_mut_slice());
    *zones = Items::from(all);
    placed
}

fn place_each(alloc: Global, dir: &[u8], zones: &mut [ManifestZone]) -> Result<(), NoMemory> {
    for zone in zones.iter_mut() {
        place(alloc, dir, &mut zone.file)?;
    }
    Ok(())
}

fn place_leaps(
    alloc: Global,
    dir: &[u8],
    leaps: &mut Option<ManifestLeaps>,
) -> Result<(), NoMemory> {
    match leaps {
        None => Ok(()),
        Some(leaps) => place(alloc, dir, &mut leaps.file),
    }
}

/// Puts a file in a folder.
fn place(alloc: Global, dir: &[u8], file: &mut Bytes) -> Result<(), NoMemory> {
    *file = path_in(alloc, dir, file.as_slice())?;
    Ok(())
}

/// The path of a file in a folder.
fn path_in(alloc: Global, dir: &[u8], name: &[u8]) -> Result<Bytes, NoMemory> {
    let mut path = Bytes::new(alloc);
    put_path(&mut path, dir, name)?;
    Ok(path)
}

fn put_path(path: &mut Bytes, dir: &[u8], name: &[u8]) -> Result<(), NoMemory> {
    path.append(dir)?;
    path.push(b'/')?;
    path.append(name)
}
