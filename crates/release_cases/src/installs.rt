//! Folders that are installed, for desks.
ghost use Rattle.std.specs.Prelude.{◌≡◌};

use case_lines::{Answer, AnswerBuilder, CaseFault, Row, display_text};
use catalogue::Catalogue;
use folder_rows::strange;
use installer::{InstallFault, InstallPolicy, Installer};
use publication::{Desk, Ended};
use std::alloc::Global;
use std::sync::Wait;
use td_base::{Bytes, MemoryStore, NoMemory};
use zone_meaning::Zone;

/// `open DIR`: the `Display` text of a first folder's fault, or nothing.
pub fn open<R: Wait>(rt: &R, alloc: Global, row: &Row, store: &mut MemoryStore) -> Answer {
    match first_installer(rt, alloc, row.word(0)?, store) {
        Ok(installer) => {
            installer.close(rt);
            Ok(Vec::new(alloc))
        }
        Err(fault) => display_text(alloc, &fault),
    }
}

/// An installer that begins with the first folder, and has no desk.
pub fn first_installer<R: Wait>(
    rt: &R,
    alloc: Global,
    dir: &[u8],
    store: &mut MemoryStore,
) -> Result<Installer, InstallFault> {
    let (installer, desks) = Installer::open(rt, alloc, dir, store, 1)?;
    drop(desks);
    Ok(installer)
}

/// The places of two desks after each step.
#[derive(Clone, Copy)]
struct Steps {
    opened: (u32, u32),
    // Before any enter.
    learned: (u32, u32),
    grown: (u32, u32),
    refused: (u32, u32),
}

/// `install DIR DIR DIR`: the places at which two desks answer, and the fault of the third folder.
/// First the first folder was published, then the first desk learned of the second, then both
/// entered. Then the third was refused, and at last both learned the end.
pub fn install<R: Wait>(
    rt: &R,
    alloc: Global,
    row: &Row,
    store: &mut MemoryStore,
    asked: &InstallPolicy<'_>,
) -> Answer {
    let mut fault = Bytes::new(alloc);
    match run(rt, alloc, row, store, asked, &mut fault) {
        Ok((steps, ended)) => as_line(alloc, &steps, ended, fault.as_slice()),
        Err(InstallFault::NoMemory) => Err(CaseFault::NoMemory),
        Err(_fault) => strange(),
    }
}

/// The places after each step, and the fault of the third folder.
fn as_line(alloc: Global, steps: &Steps, ended: (u32, u32), fault: &[u8]) -> Answer {
    let mut builder = AnswerBuilder::new(alloc);
    for places in [
        steps.opened,
        steps.learned,
        steps.grown,
        steps.refused,
        ended,
    ] {
        builder.add_debug(&places);
        builder.add_bytes(b" ");
    }
    builder.add_bytes(fault);
    builder.finish()
}

/// The steps, and the places at the end. The fault of the third folder is appended.
fn run<R: Wait>(
    rt: &R,
    alloc: Global,
    row: &Row,
    store: &mut MemoryStore,
    asked: &InstallPolicy<'_>,
    fault: &mut Bytes,
) -> Result<(Steps, (u32, u32)), InstallFault> {
    let (first, more) = (word(row, 0), (word(row, 1), word(row, 2)));
    let (installer, desks) = Installer::open(rt, alloc, first, store, 2)?;
    let mut desks = desks;
    let mut two = desks.pop().unwrap();
    let mut one = desks.pop().unwrap();
    run_for(
        rt, alloc, more, store, asked, fault, installer, &mut one, &mut two,
    )
}

/// The steps after the first release, for two desks.
fn run_for<R: Wait>(
    rt: &R,
    alloc: Global,
    dirs: (&[u8], &[u8]),
    store: &mut MemoryStore,
    asked: &InstallPolicy<'_>,
    fault: &mut Bytes,
    installer: Installer,
    one: &mut Desk<Catalogue<Zone>>,
    two: &mut Desk<Catalogue<Zone>>,
) -> Result<(Steps, (u32, u32)), InstallFault>
    requires { (one.old.pair ≡ installer.pair) × (two.old.pair ≡ installer.pair) }
{
    let mut installer = installer;
    match grow(
        rt,
        alloc,
        dirs,
        store,
        asked,
        fault,
        &mut installer,
        one,
        two,
    ) {
        Ok(steps) => Ok((steps, end_places(rt, installer, one, two)?)),
        Err(fault) => {
            installer.close(rt);
            Err(fault)
        }
    }
}

/// The folder at this position, or the store's own top folder if the row has none.
fn word(row: &Row, at: usize) -> &[u8] {
    row.word(at).unwrap_or(&[])
}

/// Installs a release that the first desk learns of, and then one that is refused.
fn grow<R: Wait>(
    rt: &R,
    alloc: Global,
    dirs: (&[u8], &[u8]),
    store: &mut MemoryStore,
    asked: &InstallPolicy<'_>,
    fault: &mut Bytes,
    installer: &mut Installer,
    one: &mut Desk<Catalogue<Zone>>,
    two: &mut Desk<Catalogue<Zone>>,
) -> Result<Steps, InstallFault>
    requires { one.old.pair ≡ installer.old.pair }
    ensures installer { installer.new.pair ≡ installer.old.pair }
    ensures one { one.new.pair ≡ one.old.pair }
    ensures two { two.new.pair ≡ two.old.pair }
{
    let opened = (entry_place(one), entry_place(two));
    let receipt = installer.install(rt, alloc, dirs.0, store, asked)?;
    one.learn(receipt);
    let learned = (one.value().count(), two.value().count());
    let grown = (entry_place(one), entry_place(two));
    put_fault(
        alloc,
        fault,
        installer.install(rt, alloc, dirs.1, store, asked),
    )?;
    let refused = (entry_place(one), entry_place(two));
    Ok(Steps {
        opened,
        learned,
        grown,
        refused,
    })
}

/// Appends a fault as it is printed, if there is one.
fn put_fault<T: Drop>(
    alloc: Global,
    text: &mut Bytes,
    answer: Result<T, InstallFault>,
) -> Result<(), NoMemory> {
    match answer {
        Ok(_) => Ok(()),
        Err(fault) => fault.put(alloc, text),
    }
}

/// The place at which a desk answers after an enter, or 0 if the enter was refused.
pub fn entry_place(desk: &mut Desk<Catalogue<Zone>>) -> u32
    ensures { desk.new.pair ≡ desk.old.pair }
{
    if desk.enter().is_err() {
        return 0;
    }
    desk.value().count()
}

/// The places of two desks that learn the end.
fn end_places<R: Wait>(
    rt: &R,
    installer: Installer,
    one: &mut Desk<Catalogue<Zone>>,
    two: &mut Desk<Catalogue<Zone>>,
) -> Result<(u32, u32), NoMemory>
    requires { (one.old.pair ≡ installer.pair) × (two.old.pair ≡ installer.pair) }
{
    let mut ended = installer.end(rt)?;
    let learned = both_learn(&mut ended, one, two);
    ended.close(rt);
    learned?;
    Ok((one.value().count(), two.value().count()))
}

/// Two desks learn the end.
fn both_learn(
    ended: &mut Ended<Catalogue<Zone>>,
    one: &mut Desk<Catalogue<Zone>>,
    two: &mut Desk<Catalogue<Zone>>,
) -> Result<(), NoMemory>
    requires { (one.old.pair ≡ ended.old.pair) × (two.old.pair ≡ ended.old.pair) }
{
    one.learn(ended.receipt()?);
    two.learn(ended.receipt()?);
    Ok(())
}
