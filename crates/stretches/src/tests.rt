use crate::{Fate, Intake, fate_after};
use std::alloc::Global;
use std::process::Abort;
use td_base::{Bytes, End, NoMemory};

/// What is given of a stream that comes in pieces of this size.
fn given(rt: &impl Abort, alloc: Global, stream: &[u8], size: usize) -> Result<Bytes, NoMemory> {
    let mut intake = Intake::new(alloc);
    let mut out = Bytes::new(alloc);
    let mut room = [0; 7];
    for piece in stream.chunks(size.max(1)) {
        intake.append(piece)?;
        for _ in 0..1000 {
            if !intake.look() {
                break;
            }
            let count = intake.give(&mut room);
            assert!(rt; count > 0);
            assert!(rt; count <= room.len());
            out.append(&room[..count])?;
        }
    }
    Ok(out)
}

const STREAM: &[u8] = b"\r\nGET / HTTP/1.1\r\nHost: x\r\n\r\nHEAD /a HTTP/1.0\n\nGET /b";

#[test]
fn heads_are_given_whole(rt: HostRuntime) -> Result<(), NoMemory> {
    for size in 1..60 {
        let out = given(&rt, rt.alloc(), STREAM, size)?;
        assert!(rt; out.as_slice() == &STREAM[..47], "in pieces of {size}");
    }
    Ok(())
}

#[test]
fn what_can_be_no_head_is_given(rt: HostRuntime) -> Result<(), NoMemory> {
    let mut intake = Intake::new(rt.alloc());
    for _ in 0..16_383 {
        intake.append(b"x")?;
        assert!(rt; !intake.look());
    }
    intake.append(b"x")?;
    assert!(rt; intake.look());
    let mut intake = Intake::new(rt.alloc());
    for _ in 0..65 {
        intake.append(b"x\n")?;
        assert!(rt; !intake.look());
    }
    intake.append(b"x\n")?;
    assert!(rt; intake.look());
    Ok(())
}

#[test]
fn fates(rt: HostRuntime) {
    assert!(rt; fate_after(End::Closed, true, false) == Fate::GoesOn);
    assert!(rt; fate_after(End::Closed, false, false) == Fate::Leaves);
    assert!(rt; fate_after(End::Closed, true, true) == Fate::Leaves);
    assert!(rt; fate_after(End::NoMemory, true, false) == Fate::Leaves);
    assert!(rt; fate_after(End::ReadFault, true, false) == Fate::Breaks);
}
