//! Doors in memory, some of whose calls fail.
ghost use Rattle.std.specs.Prelude.{IfOk};
ghost use Rattle.base_cases.specs.Settled.{IsDoorSettled, IsUnasked};
ghost use Rattle.td_base.specs.MemoryDoors.{faulty_door, memory_door};

use crate::conns::{self, echo};
use crate::given;
use case_lines::{Answer, AnswerBuilder, CaseFault, Row, debug_text};
use std::alloc::Global;
use td_base::{Accepted, Door, DoorAnswer, End, FaultyDoor, MemoryDoor, Places, Report};

/// `door ROOM SCRIPT FAILING CALLS`: the results of CALLS requests for a connection, each of which
/// is echoed once and handed back. Then what is still to come, the room for more, and what the
/// connections handed back gave and took. The script has `idle` and inputs, separated by commas.
pub fn door(alloc: Global, row: &Row) -> Answer {
    let calls = row.number(3)?;
    let mut door = faulty(alloc, row)?;
    let mut builder = AnswerBuilder::new(alloc);
    'calls: for _ in 0..calls {
        builder.add_answer(debug_text(alloc, &serve(alloc, &mut door)));
    }
    add_door(&mut builder, door.inner());
    builder.finish()
}

fn faulty(alloc: Global, row: &Row) -> Result<FaultyDoor<MemoryDoor>, CaseFault>
    ensures { IfOk result (λ door. IsDoorSettled (faulty_door memory_door door)) }
{
    let failing = given::calls(alloc, row, 2)?;
    let door = script_door(alloc, row.number(0)?, row.word(1)?)?;
    Ok(FaultyDoor::new(door, failing))
}

/// A door of this script.
fn script_door(alloc: Global, room: u64, script: &[u8]) -> Result<MemoryDoor, CaseFault>
    ensures { IfOk result IsUnasked }
{
    let mut door = MemoryDoor::new(alloc, room as usize)?;
    'steps: for step in script.split(|byte| *byte == b',') {
        push(alloc, &mut door, step)?;
    }
    Ok(door)
}

/// Adds a step.
fn push(alloc: Global, door: &mut MemoryDoor, step: &[u8]) -> Result<(), CaseFault>
    ensures { IsUnasked door.old → IsUnasked door.new }
{
    if step == b"idle".as_slice() {
        door.push_idle()?;
        return Ok(());
    }
    if door.room() == 0 {
        return Err(CaseFault::Strange);
    }
    let conn = given::conn(alloc, step)?;
    door.push_conn(conn)?;
    Ok(())
}

#[tactic(auto, using(crate::proofs::BackLemmas::is_out, crate::proofs::BackLemmas::is_back, crate::proofs::BackLemmas::is_idle, crate::proofs::BackLemmas::is_ended, crate::proofs::BackLemmas::is_failed))]
/// Requests the next connection, echoes one read of it, and hands it back.
fn serve<D: Door>(alloc: Global, door: &mut D) -> DoorAnswer
    requires { IsDoorSettled (D.seen door.old) }
    ensures { IsDoorSettled (D.seen door.new) }
{
    match door.accept() {
        Accepted::Given(mut conn) => {
            echo(&mut conn);
            door.finish(conn, report(alloc));
            DoorAnswer::Given
        }
        Accepted::Idle => DoorAnswer::Idle,
        Accepted::Ended => DoorAnswer::Ended,
        Accepted::Failed => DoorAnswer::Failed,
    }
}

fn report(alloc: Global) -> Report {
    Report {
        end: End::Closed,
        places: Places::new(alloc),
        computed: 0,
    }
}

/// Appends the state of a door.
fn add_door(builder: &mut AnswerBuilder, door: &MemoryDoor) {
    builder.add_bytes(b" coming ");
    builder.add_debug(&door.coming());
    builder.add_bytes(b" room ");
    builder.add_debug(&door.room());
    for served in door.finished() {
        conns::add_conn(builder, served.conn.inner());
    }
}
