//! Two doors, each of which waits for the other.
use crate::small::small;
use case_lines::{Answer, AnswerBuilder, CaseFault, Row};
use devices::{GateDoor, gate_pair};
use std::alloc::Global;
use std::thread::{Threads, join};
use td_base::{Accepted, Conn, Door, End, Places, ReadStep, Report, WriteStep};

/// `gates TURNS`: how the connections of two doors ended and what each took. Two threads serve
/// them, and a read waits for at most TURNS turns.
pub fn beside<R: Threads>(rt: &R, alloc: Global, row: &Row) -> Answer {
    let (left, right) = gate_pair(alloc, small(row, 0)?)?;
    let (left, right) = join(rt, move || serve(alloc, left), move || serve(alloc, right));
    as_line(alloc, &left, &right)
}

/// `gates-alone TURNS`: the same when one thread serves them one after the other.
pub fn alone(alloc: Global, row: &Row) -> Answer {
    let (left, right) = gate_pair(alloc, small(row, 0)?)?;
    let left = serve(alloc, left);
    let right = serve(alloc, right);
    as_line(alloc, &left, &right)
}

/// `gates-turned TURNS`: the same when the second is served first.
pub fn second_first(alloc: Global, row: &Row) -> Answer {
    let (left, right) = gate_pair(alloc, small(row, 0)?)?;
    let right = serve(alloc, right);
    let left = serve(alloc, left);
    as_line(alloc, &left, &right)
}

/// Answers the requests of the door's connection, each with two bytes, and hands it back.
fn serve(alloc: Global, mut door: GateDoor) -> GateDoor {
    if let Accepted::Given(mut conn) = door.accept() {
        let end = answer_each(&mut conn);
        let places = Places::new(alloc);
        let report = Report {
            end,
            places,
            computed: 0,
        };
        door.finish(conn, report);
    }
    door
}

/// Reads to the end, and writes two bytes after each empty line.
fn answer_each<C: Conn>(conn: &mut C) -> End {
    let mut room = [0; 100];
    for _ in 0..10 {
        match conn.read(&mut room) {
            ReadStep::Got(count) => {
                if room[..count].ends_with(b"\r\n\r\n") && conn.write(b"ok") != WriteStep::Took(2) {
                    return End::WriteFault;
                }
            }
            ReadStep::End => return End::Closed,
            ReadStep::Failed => return End::ReadFault,
        }
    }
    End::NoMemory
}

fn as_line(alloc: Global, left: &GateDoor, right: &GateDoor) -> Answer {
    let mut builder = AnswerBuilder::new(alloc);
    add_served(&mut builder, left);
    builder.add_bytes(b"|");
    add_served(&mut builder, right);
    builder.finish()
}

/// Appends how the connection of a door ended, and what it took.
fn add_served(builder: &mut AnswerBuilder, door: &GateDoor) {
    match door.served() {
        Some((conn, report)) => {
            builder.add_debug(&report.end);
            builder.add_bytes(b" ");
            builder.add_bytes(conn.taken());
        }
        None => builder.fail(CaseFault::Strange),
    }
}
