ghost use Rattle.td_base.specs.DoorViews.{DoorView};
ghost use Rattle.td_base.specs.Doors.{Accepts, Finishes, HasOut};

use crate::{Conn, Report};

/// The result of one call of [`Door::accept`].
#[derive(Drop)]
pub enum Accepted<C> {
    /// The next connection.
    Given(C),
    /// No connection is waiting now; another call may give one.
    Idle,
    /// No connection will come any more.
    Ended,
    /// The door failed.
    Failed,
}

/// Which result a door gave, without the connection.
#[derive(Clone, Copy, Debug, PartialEq, Eq)]
pub enum DoorAnswer {
    /// A connection.
    Given,
    /// No connection was waiting.
    Idle,
    /// No connection would come any more.
    Ended,
    /// The door failed.
    Failed,
}

/// A listener that hands out connections one after the other. Contracts see the inputs of a door in
/// memory, and the connections handed back to it. Of the door of a real network they see only its
/// last answer.
pub trait Door {
    type Conn: Conn;

    ghost seen: { Self → DoorView };

    /// The next connection, before any read or write on it. It may block for a while to wait for
    /// one.
    fn accept(&mut self) -> Accepted<Self::Conn>
        ensures accepts { Accepts Self.Conn.seen (seen self.old) (seen self.new) result };

    /// Takes back a connection that it gave, with the report of how it was served.
    fn finish(&mut self, conn: Self::Conn, report: Report)
        requires { HasOut (seen self.old) }
        ensures finishes { Finishes (seen self.old) (seen self.new) (Self.Conn.seen conn) report };
}
