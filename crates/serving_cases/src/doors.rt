//! A worker at a door.
use crate::desks::one_desk;
use crate::listed_door::ListedDoor;
use case_lines::{Answer, Row};
use catalogue::Catalogue;
use connection::{DoorDone, DoorWork};
use desk_pool::StopFlag;
use publication::Desk;
use std::alloc::{AllocError, Global};
use std::sync::Wait;
use td_base::{End, FaultyConn, MemoryConn, NoMemory, Report, Role, Work};
use zone_meaning::Zone;

/// `door FLAG STEPS`: the result of a worker at a door that answers by these steps, with the flag
/// `raised` or `down` from the start. It has the connections handed back, how many answers are
/// left, and whether the door is worn.
pub fn door<R: Wait>(rt: &R, alloc: Global, row: &Row) -> Answer {
    let raised = row.text(0)? == "raised";
    let steps = row.word(1)?;
    let (publisher, desk) = one_desk(rt, alloc)?;
    let done = work(rt, alloc, desk, steps, raised);
    publisher.close(rt);
    Ok(as_line(alloc, &done?)?)
}

/// Lets a worker serve a door of these steps.
fn work<R: Wait>(
    rt: &R,
    alloc: Global,
    desk: Desk<Catalogue<Zone>>,
    steps: &[u8],
    raised: bool,
) -> Result<DoorDone<ListedDoor>, NoMemory> {
    let mut flag = StopFlag::new(alloc)?;
    let sign = flag.share()?;
    if raised {
        flag.raise();
    }
    let door = ListedDoor::new(alloc, steps)?;
    Ok(DoorWork::new(alloc, Role::Primary, door, desk, sign).run(rt))
}

fn as_line(alloc: Global, done: &DoorDone<ListedDoor>) -> Result<Vec<u8>, AllocError> {
    let mut out = Vec::new(alloc);
    for (conn, report) in &done.door.finished {
        out.push(letter(conn, report))?;
    }
    let (left, worn) = (done.door.steps_left(), done.worn);
    out.extend_from_slice(format!(in alloc; " {left} {worn}")?.as_bytes())?;
    Ok(out)
}

/// The letter of a connection that was handed back.
fn letter(conn: &FaultyConn<MemoryConn>, report: &Report) -> u8 {
    if is_answered(conn, report) {
        b'c'
    } else if is_failed(conn, report) {
        b'r'
    } else {
        b'?'
    }
}

/// Whether a connection with a list request was answered at the first place.
fn is_answered(conn: &FaultyConn<MemoryConn>, report: &Report) -> bool {
    conn.inner()
        .sink
        .taken()
        .starts_with(b"HTTP/1.1 200 OK\r\n")
        && report.end == End::Closed
        && report.places.as_slice() == [1].as_slice()
}

/// Whether nothing was read or answered, because the read failed.
fn is_failed(conn: &FaultyConn<MemoryConn>, report: &Report) -> bool {
    conn.inner().sink.taken().is_empty()
        && report.end == End::ReadFault
        && report.places.as_slice().is_empty()
}
