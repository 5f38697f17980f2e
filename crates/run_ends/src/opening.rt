ghost use Rattle.std.specs.Prelude.{◌≡◌, ◌<◌, ◌≤◌, [], length, All, IfOk};
ghost use Rattle.run_ends.specs.Opening.{HasDesks, InstallsAll, InstallsRest, published_in};
ghost use Rattle.run_ends.specs.Opening.{HasSeen};

use crate::session::Session;
use catalogue::Catalogue;
use installer::{InstallFault, InstallPolicy, Installer};
use publication::Desk;
use std::alloc::Global;
use std::sync::Wait;
use td_base::{Bytes, NoMemory, Store};
use zone_meaning::Zone;

/// What exists once the releases of folders are installed: a session, and the desks of its workers.
pub struct OpenedServer {
    pub session: Session,
    pub desks: Vec<Desk<Catalogue<Zone>>>,
}

/// Installs the releases of folders, for a session and the desks of this many workers. Rules apply
/// to each release but the first.
pub fn open_all<R: Wait, S: Store>(
    rt: &R,
    alloc: Global,
    folders: &[Bytes],
    asked: &InstallPolicy<'_>,
    store: &mut S,
    workers: u32,
) -> Result<OpenedServer, InstallFault>
    requires folders { 0 < length folders.now }
    requires workers { workers ≤ 64 }
    ensures all { InstallsAll asked.now.rules.chosen folders.now
        (S.seen store.old) (S.seen store.new) (published_in result) }
    ensures desks { IfOk result (HasDesks workers) }
{
    let first = folders[0].as_slice();
    let (installer, mut desks) = Installer::open(rt, alloc, first, store, workers + 1)?;
    let desk = desks.pop().unwrap();
    let mut session = Session {
        alloc,
        installer,
        desk,
    };
    if let Err(fault) = install_rest(rt, &folders[1..], asked, store, &mut session) {
        session.close(rt);
        return Err(fault);
    }
    match learn_opening(alloc, &session.installer, desks) {
        Ok(desks) => Ok(OpenedServer { session, desks }),
        Err(NoMemory) => {
            session.close(rt);
            Err(InstallFault::NoMemory)
        }
    }
}

/// Lets desks learn all that was published so far.
fn learn_opening(
    alloc: Global,
    installer: &Installer,
    desks: Vec<Desk<Catalogue<Zone>>>,
) -> Result<Vec<Desk<Catalogue<Zone>>>, NoMemory>
    requires { All (λ d. d.pair ≡ installer.now.pair) desks.items }
    ensures number { IfOk result (λ r. length r.items ≡ length desks.items) }
    ensures seen { IfOk result (λ r.
        All (HasSeen installer.now.pair (length installer.now.list)) r.items) }
{
    let mut learnt = Vec::new(alloc);
    for one in desks {
        let mut desk = one;
        desk.learn(installer.receipt()?);
        learnt.push(desk)?;
    }
    Ok(learnt)
}

/// Installs the releases of further folders, each after those before it.
fn install_rest<R: Wait, S: Store>(
    rt: &R,
    folders: &[Bytes],
    asked: &InstallPolicy<'_>,
    store: &mut S,
    session: &mut Session,
) -> Result<(), InstallFault>
    ensures rest { InstallsRest asked.now.rules.chosen folders.now
        (S.seen store.old) (S.seen store.new)
        session.old.installer.list session.new.installer.list result }
    ensures nobody { session.old.installer.subscribers ≡ []
        → session.new.installer.subscribers ≡ [] }
    ensures pair { session.new.installer.pair ≡ session.old.installer.pair }
{
    for folder in folders {
        session.install(rt, folder.as_slice(), store, asked)?;
    }
    Ok(())
}
