ghost use Rattle.connection.specs.DoorWorks.{NoneOut};
ghost use Rattle.connection.specs.Keeping.{KeepsAnswers};
ghost use Rattle.connection.specs.Rounds.{ServesNext};
ghost use Rattle.json_forms.specs.PlainTexts.{IsPlainRole};

use crate::kept_answers::KeptAnswers;
use crate::serving::serve_over;
use catalogue::Catalogue;
use desk_pool::StopSign;
use publication::Desk;
use std::alloc::Global;
use td_base::{Accepted, Door, Role};
use zone_meaning::Zone;

/// The result of one round.
#[derive(Clone, Copy, PartialEq, Eq)]
pub enum Round {
    /// A connection was served, or none waited.
    GoesOn,
    /// The door failed.
    Failed,
    /// No connection is still to come.
    Ended,
    /// No connection waited, and the flag was raised.
    Stopped,
}

/// Requests a connection from the door and serves it. It looks at the sign only when none waits.
pub fn serve_next<D: Door>(
    alloc: Global,
    role: &Role,
    door: &mut D,
    desk: &mut Desk<Catalogue<Zone>>,
    kept: &mut KeptAnswers,
    sign: &mut StopSign,
) -> Round
    requires role { IsPlainRole role.now }
    requires door { NoneOut (D.seen door.old) }
    requires kept { KeepsAnswers desk.old role.now kept.old }
    ensures serves { ServesNext role.now (D.seen door.old) (D.seen door.new) desk.old desk.new
        sign.old sign.new result }
    ensures kept { KeepsAnswers desk.new role.now kept.new }
{
    match door.accept() {
        Accepted::Given(conn) => {
            let mut conn = conn;
            let report = serve_over(alloc, role, desk, kept, &mut conn);
            door.finish(conn, report);
            Round::GoesOn
        }
        Accepted::Idle => {
            if sign.is_raised() {
                Round::Stopped
            } else {
                Round::GoesOn
            }
        }
        Accepted::Ended => Round::Ended,
        Accepted::Failed => Round::Failed,
    }
}
