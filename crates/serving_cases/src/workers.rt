//! A worker that keeps its answers, at a door that installs releases.
use crate::growing_door::GrowingDoor;
use crate::listed_door::ListedDoor;
use case_lines::{Answer, CaseFault, Row};
use catalogue::Catalogue;
use connection::{DoorDone, DoorWork};
use desk_pool::{StopFlag, StopSign};
use installer::Installer;
use publication::Desk;
use release_manifest::{Manifest, read};
use std::alloc::{AllocError, Global};
use std::collections::VecDeque;
use std::sync::Wait;
use td_base::{Bytes, MemoryStore, NoMemory, Role, Work};
use zone_meaning::Zone;

/// A reply longer than this, in bytes, has a body too large for the cache of many answers.
const LARGE_REPLY: usize = 66_048;

/// `worker STEPS FILE MANIFEST MANIFEST ..`: the result of a worker at a door of these steps, over
/// a history that begins with the release of the first manifest. `c` gives a connection that
/// requests the list, and `p` installs the release of the next manifest before that. `FILE` is the
/// file `z` of zones. For each connection it prints the place at which it was answered and how many
/// answers were computed for that. A plus sign means that the list has over 65,536 bytes.
pub fn worker<R: Wait>(rt: &R, alloc: Global, row: &Row) -> Answer {
    let first = manifest_of(alloc, row.word(2)?)?;
    let plan = plan_of(alloc, row)?;
    let mut store = store_of(alloc, row.word(1)?)?;
    match Installer::open_manifest(rt, alloc, &first, &mut store, 1) {
        Ok((installer, desks)) => {
            let mut desks = desks;
            let desk = desks.pop().unwrap();
            let door = serve_plan(rt, alloc, plan, installer, store, desk);
            Ok(as_line(alloc, &door)?)
        }
        Err(_) => Err(CaseFault::Strange),
    }
}

/// What a row says of its worker.
#[derive(Drop)]
struct WorkerPlan {
    steps: VecDeque<u8>,
    manifests: VecDeque<Manifest>,
    door: ListedDoor,
    sign: StopSign,
}

fn plan_of(alloc: Global, row: &Row) -> Result<WorkerPlan, CaseFault> {
    let steps = steps_of(alloc, row)?;
    let manifests = later_manifests(alloc, row)?;
    let door = ListedDoor::new(alloc, row.word(0)?)?;
    let sign = lowered_sign(alloc)?;
    Ok(WorkerPlan {
        steps,
        manifests,
        door,
        sign,
    })
}

/// The sign of a flag that is never raised.
fn lowered_sign(alloc: Global) -> Result<StopSign, NoMemory> {
    let mut flag = StopFlag::new(alloc)?;
    flag.share()
}

/// A store of one file.
fn store_of(alloc: Global, file: &[u8]) -> Result<MemoryStore, NoMemory> {
    let mut store = MemoryStore::new(alloc);
    store.put(
        Bytes::from_slice(alloc, b"z")?,
        Bytes::from_slice(alloc, file)?,
    )?;
    Ok(store)
}

fn manifest_of(alloc: Global, text: &[u8]) -> Result<Manifest, CaseFault> {
    match read(alloc, text) {
        Ok(manifest) => Ok(manifest),
        Err(_) => Err(CaseFault::Strange),
    }
}

/// The manifests after the first.
fn later_manifests(alloc: Global, row: &Row) -> Result<VecDeque<Manifest>, CaseFault> {
    let mut manifests = VecDeque::new(alloc);
    for at in 3..row.words().len() {
        manifests.push_back(manifest_of(alloc, row.word(at)?)?)?;
    }
    Ok(manifests)
}

fn steps_of(alloc: Global, row: &Row) -> Result<VecDeque<u8>, CaseFault> {
    let mut steps = VecDeque::new(alloc);
    for step in row.word(0)? {
        steps.push_back(*step)?;
    }
    Ok(steps)
}

/// Lets a worker serve the door of a plan, closes the installer, and returns the door.
fn serve_plan<R: Wait>(
    rt: &R,
    alloc: Global,
    plan: WorkerPlan,
    installer: Installer,
    store: MemoryStore,
    desk: Desk<Catalogue<Zone>>,
) -> ListedDoor {
    let WorkerPlan {
        steps,
        manifests,
        door,
        sign,
    } = plan;
    let door = GrowingDoor {
        rt,
        alloc,
        installer,
        store,
        steps,
        manifests,
        door,
    };
    let DoorDone {
        door,
        desk: _,
        sign: _,
        worn: _,
    } = DoorWork::new(alloc, Role::Primary, door, desk, sign).run(rt);
    door.close()
}

fn as_line(alloc: Global, door: &ListedDoor) -> Result<Vec<u8>, AllocError> {
    let mut out = Vec::new(alloc);
    for (conn, report) in &door.finished {
        for place in report.places.as_slice() {
            out.extend_from_slice(format!(in alloc; "{place}")?.as_bytes())?;
        }
        out.extend_from_slice(format!(in alloc; ":{}", report.computed)?.as_bytes())?;
        if conn.inner().sink.taken().len() > LARGE_REPLY {
            out.push(b'+')?;
        }
        out.push(b';')?;
    }
    Ok(out)
}
