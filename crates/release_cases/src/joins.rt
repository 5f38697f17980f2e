//! Whether a folder joins a history as a whole or not at all.
use crate::installs::entry_place;
use case_lines::{Answer, AnswerBuilder, CaseFault, Row};
use catalogue::Catalogue;
use folder_rows::strange;
use installer::{InstallFault, InstallPolicy, Installer};
use publication::Desk;
use std::alloc::Global;
use std::fmt;
use std::sync::Wait;
use td_base::MemoryStore;
use zone_meaning::Zone;

/// The state of a history: its releases, the zones and names of the last one, and the place of a
/// desk after an enter.
#[derive(Clone, Copy)]
struct Stand {
    releases: u32,
    zones: usize,
    names: usize,
    entered: u32,
}

impl fmt::Display for Stand {
    fn fmt<W: fmt::Write>(&self, f: &mut fmt::Formatter<W>) -> fmt::Result {
        let (releases, zones) = (self.releases, self.zones);
        let (names, entered) = (self.names, self.entered);
        write!(f, "{releases},{zones},{names},{entered}")
    }
}

/// The result for a folder: whether it joined the history, and the resulting state. `None` if it is
/// refused for another cause than memory.
type Joining = Option<(bool, Stand)>;

/// `joins DIR DIR STAND`: the state of the history of the first folder once the second has joined
/// it. The state is releases, zones, names and the place of a desk, separated by commas. A first
/// try that is out of memory is repeated. If the state between the tries is not STAND, it is
/// printed first. `bench/each_allocation.py` fails each allocation of such a row in turn.
pub fn joins<R: Wait>(
    rt: &R,
    alloc: Global,
    row: &Row,
    store: &mut MemoryStore,
    asked: &InstallPolicy<'_>,
) -> Answer {
    let [first, second, between, ..] = row.words() else {
        return strange();
    };
    let dirs = (first.as_slice(), second.as_slice());
    match install_both(rt, alloc, dirs, store, asked) {
        Ok((first, second)) => as_line(alloc, first, second, between.as_slice()),
        Err(InstallFault::NoMemory) => Err(CaseFault::NoMemory),
        Err(_fault) => strange(),
    }
}

/// The state after a failed try, if it is not this one, and the state at the end.
fn as_line(alloc: Global, first: Joining, second: Joining, between: &[u8]) -> Answer {
    let mut builder = AnswerBuilder::new(alloc);
    if let Some((false, stand)) = first {
        add_other(alloc, &mut builder, &stand, between);
    }
    if let Some((true, stand)) = second {
        builder.add_display(&stand);
    }
    builder.finish()
}

/// Appends a state and a blank, if the state is not this one.
fn add_other(alloc: Global, builder: &mut AnswerBuilder, stand: &Stand, other: &[u8]) {
    match stand.to_string(alloc) {
        Ok(text) => {
            if text.as_bytes() != other {
                builder.add_bytes(text.as_bytes());
                builder.add_bytes(b" ");
            }
        }
        Err(_) => builder.fail(CaseFault::NoMemory),
    }
}

/// Installs the second folder after the first, and once more if it was out of memory.
fn install_both<R: Wait>(
    rt: &R,
    alloc: Global,
    dirs: (&[u8], &[u8]),
    store: &mut MemoryStore,
    asked: &InstallPolicy<'_>,
) -> Result<(Joining, Joining), InstallFault> {
    let (installer, desks) = Installer::open(rt, alloc, dirs.0, store, 1)?;
    let (mut installer, mut desks) = (installer, desks);
    let mut desk = desks.pop().unwrap();
    let both = install_twice(rt, alloc, dirs.1, store, asked, &mut installer, &mut desk);
    installer.close(rt);
    Ok(both)
}

/// Installs a folder, and once more if it was out of memory.
fn install_twice<R: Wait>(
    rt: &R,
    alloc: Global,
    dir: &[u8],
    store: &mut MemoryStore,
    asked: &InstallPolicy<'_>,
    installer: &mut Installer,
    desk: &mut Desk<Catalogue<Zone>>,
) -> (Joining, Joining) {
    let first = install(rt, alloc, dir, store, asked, installer, desk);
    let second = match first {
        Some((false, _)) => install(rt, alloc, dir, store, asked, installer, desk),
        _ => first,
    };
    (first, second)
}

/// Installs a folder.
fn install<R: Wait>(
    rt: &R,
    alloc: Global,
    dir: &[u8],
    store: &mut MemoryStore,
    asked: &InstallPolicy<'_>,
    installer: &mut Installer,
    desk: &mut Desk<Catalogue<Zone>>,
) -> Joining {
    let joined = match installer.install(rt, alloc, dir, store, asked) {
        Ok(receipt) => {
            drop(receipt);
            true
        }
        Err(InstallFault::NoMemory) => false,
        Err(_fault) => return None,
    };
    Some((joined, stand_of(installer, desk)))
}

fn stand_of(installer: &Installer, desk: &mut Desk<Catalogue<Zone>>) -> Stand {
    let last = installer.last();
    Stand {
        releases: last.count(),
        zones: last.len(),
        names: last.name_count(),
        entered: entry_place(desk),
    }
}
