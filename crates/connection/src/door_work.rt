ghost use Rattle.std.specs.Prelude.{◌≡◌};
ghost use Rattle.connection.specs.DoorWorks.{DoesDoor, NoneOut};
ghost use Rattle.json_forms.specs.PlainTexts.{IsPlainRole};

use crate::kept_answers::KeptAnswers;
use crate::round::{Round, serve_next};
use catalogue::Catalogue;
use desk_pool::{StopSign, StopsBy};
use publication::Desk;
use std::alloc::Global;
use std::marker::Model;
use std::sync::Wait;
use td_base::{Door, Role, Work};
use zone_meaning::Zone;

/// After how many failures a door is worn, that is, given up.
pub const MOST_FAILURES: u32 = 16;

/// The work of one worker: it serves the connections of its door one after the other, over its own
/// desk, and hands each back. Answers that it computed for one connection are kept for all.
///
/// It ends when the door reports that no connection is still to come, or fails for the 16th time.
/// It also ends when no connection waits and the flag of its sign was raised.
#[derive(Drop)]
pub struct DoorWork<D: Door> {
    alloc: Global,
    role: Role,
    door: D,
    desk: Desk<Catalogue<Zone>>,
    stop: StopSign,
}

impl<D: Door> Model for DoorWork<D> {
    ghost use Rattle.connection.specs.DoorWorks.{NoneOut, WorkView};
    ghost use Rattle.json_forms.specs.PlainTexts.{IsPlainRole};

    ghost Value = { WorkView };

    ghost view = { λ w. record {
      role = w.role;
      door = D.seen w.door;
      desk = w.desk;
      stop = w.stop;
    } };

    ghost invariant = { λ w. IsPlainRole w.role × NoneOut (D.seen w.door) };
}

impl<D: Door> DoorWork<D> {
    /// The work for a door that has handed out no connection. It allocates no memory.
    pub fn new(
        alloc: Global,
        role: Role,
        door: D,
        desk: Desk<Catalogue<Zone>>,
        stop: StopSign,
    ) -> DoorWork<D>
        requires role { IsPlainRole role }
        requires door { NoneOut (D.seen door) }
        ensures { result ≡ record { role = role; door = D.seen door; desk = desk; stop = stop } }
    {
        DoorWork {
            alloc,
            role,
            door,
            desk,
            stop,
        }
    }
}

/// What a worker returns: its door, its desk, its sign, and whether the door is worn, which it is
/// at its 16th failure.
#[derive(Drop)]
pub struct DoorDone<D: Door> {
    pub door: D,
    pub desk: Desk<Catalogue<Zone>>,
    pub sign: StopSign,
    pub worn: bool,
}

impl<D: Door> StopsBy for DoorWork<D> {
    ghost flag = { λ w. w.stop.flag };
}

impl<D: Door> Work for DoorWork<D> {
    type Done = DoorDone<D>;

    ghost does = { λ w d.
        DoesDoor w.role w.door (D.seen d.door) w.desk d.desk w.stop d.sign d.worn };

    fn run<R: Wait>(self, rt: &R) -> DoorDone<D> {
        let DoorWork {
            alloc,
            role,
            door,
            desk,
            stop,
        } = self;
        let mut door = door;
        let mut desk = desk;
        let mut sign = stop;
        let worn = serve_door(rt, alloc, &role, &mut door, &mut desk, &mut sign);
        DoorDone {
            door,
            desk,
            sign,
            worn,
        }
    }
}

/// Serves round after round until one is the last, and returns whether the door is worn.
fn serve_door<R: Wait, D: Door>(
    rt: &R,
    alloc: Global,
    role: &Role,
    door: &mut D,
    desk: &mut Desk<Catalogue<Zone>>,
    sign: &mut StopSign,
) -> bool
    requires role { IsPlainRole role.now }
    requires door { NoneOut (D.seen door.old) }
    ensures { DoesDoor role.now (D.seen door.old) (D.seen door.new) desk.old desk.new
        sign.old sign.new result }
{
    let mut kept = KeptAnswers::new(alloc);
    let mut failures = 0;
    'rounds: for _ in rt.forever() {
        match serve_next(alloc, role, door, desk, &mut kept, sign) {
            Round::GoesOn => {}
            Round::Failed => {
                failures += 1;
                if failures == MOST_FAILURES {
                    return true;
                }
            }
            Round::Ended | Round::Stopped => return false,
        }
    }
    unreachable!()
}
