ghost use Rattle.connection.specs.Sending.{GivesUp, Refuses};
ghost use Rattle.http_request.specs.Taking.{IsRefusalStatus};

use http_answer::fixed;
use td_base::{Conn, End, Written, send_whole};

/// Sends status 503: there is no memory.
pub fn give_up<C: Conn>(conn: &mut C)
    ensures { GivesUp (C.seen conn.old) (C.seen conn.new) }
{
    let _ = send_whole(conn, fixed(503));
}

/// Sends the status that refuses a head, which ends the connection.
pub fn refuse<C: Conn>(conn: &mut C, status: u16) -> End
    requires { IsRefusalStatus status }
    ensures { Refuses (C.seen conn.old) (C.seen conn.new) status result }
{
    match send_whole(conn, fixed(status)) {
        Written::Whole => End::Closed,
        Written::Cut => End::WriteFault,
    }
}
