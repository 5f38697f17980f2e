ghost use Rattle.std.specs.Prelude.{◌≡◌, ◌-◌, ◌<◌, [], ◌∷◌, ◌++◌, length, None, IfOk, OnOk, OnErr};
ghost use Rattle.td_base.specs.Doors.{Accepts, Finishes, HasOut};
ghost use Rattle.td_base.specs.MemoryDoors.{IsFresh, accepted_at, after_accept, door_conn};
ghost use Rattle.td_base.specs.MemoryDoors.{inputs_of};
ghost use Rattle.td_base.specs.MemoryDoors.{memory_door};

use crate::{Accepted, Bytes, Door, DoorAnswer, FaultyConn, MemoryConn, NoMemory, Report};
use std::alloc::Global;
use std::collections::VecDeque;
use std::marker::Model;

/// What a [`MemoryDoor`] answers to one call.
#[derive(Drop)]
pub enum DoorStep {
    /// This connection.
    Conn(FaultyConn<MemoryConn>),
    /// That no connection waits.
    Idle,
}

/// A connection that was handed back to a [`MemoryDoor`], with its report.
#[derive(Drop)]
pub struct HandedBackConn {
    pub conn: FaultyConn<MemoryConn>,
    pub report: Report,
}

/// A door in memory: a script of connections and of moments at which none waits. The room for those
/// that are handed back is allocated when the door is made. Contracts see all of it, and it never
/// fails.
#[derive(Drop)]
pub struct MemoryDoor {
    script: VecDeque<DoorStep>,
    inputs: Vec<Bytes>,
    given: usize,
    finished: Vec<HandedBackConn>,
    room: usize,
    last: Option<DoorAnswer>,
}

impl Model for MemoryDoor {
    ghost use Rattle.std.specs.Prelude.{take};
    ghost use Rattle.td_base.specs.MemoryDoors.{MemoryDoorState};

    ghost Value = { MemoryDoorState };

    ghost use Rattle.td_base.specs.MemoryDoorFields.{HoldsScript};

    ghost view = { λ d. record {
      given = take d.given d.inputs.items;
      script = d.script.items;
      finished = d.finished.items;
      last = d.last;
      room = d.room;
    } };

    ghost invariant = { HoldsScript };
}

impl MemoryDoor {
    /// A door with an empty script, and room for this many returned connections.
    pub fn new(alloc: Global, connections: usize) -> Result<MemoryDoor, NoMemory>
        ensures { IfOk result (λ d. d ≡ record {
          given = [];
          script = [];
          finished = [];
          last = None;
          room = connections;
        }) }
    {
        let finished = Vec::with_capacity(alloc, connections)?;
        Ok(MemoryDoor {
            script: VecDeque::new(alloc),
            inputs: Vec::new(alloc),
            given: 0,
            finished,
            room: connections,
            last: None,
        })
    }

    /// Adds a connection at the end of the script. The door keeps a copy of its input.
    pub fn push_conn(&mut self, conn: FaultyConn<MemoryConn>) -> Result<(), NoMemory>
        requires room { 0 < self.old.room }
        requires fresh { IsFresh conn }
        ensures ok { OnOk result (self.new ≡ record self.old {
          script = self.old.script ++ DoorStep.Conn conn ∷ [];
          room = self.old.room - 1;
        }) }
        ensures err { OnErr result (self.new ≡ self.old) }
    {
        let alloc = *self.inputs.allocator();
        let input = Bytes::from_slice(alloc, conn.inner().source.left())?;
        self.inputs.reserve(1)?;
        self.script.push_back(DoorStep::Conn(conn))?;
        self.inputs.push_reserved(input);
        self.room -= 1;
        Ok(())
    }

    /// Adds a moment at which no connection waits at the end of the script.
    pub fn push_idle(&mut self) -> Result<(), NoMemory>
        ensures ok { OnOk result (self.new ≡ record self.old {
          script = self.old.script ++ DoorStep.Idle ∷ [];
        }) }
        ensures err { OnErr result (self.new ≡ self.old) }
    {
        self.script.push_back(DoorStep::Idle)?;
        Ok(())
    }

    /// The connections that were handed back, in their order.
    pub fn finished(&self) -> &[HandedBackConn]
        ensures { result.now ≡ self.now.finished }
    {
        self.finished.as_slice()
    }

    /// How many connections the script still has.
    pub fn coming(&self) -> usize
        ensures { result ≡ length (inputs_of self.now.script) }
    {
        self.inputs.len() - self.given
    }

    /// For how many more returned connections there is room.
    pub fn room(&self) -> usize
        ensures { result ≡ self.now.room }
    {
        self.room
    }
}

impl Door for MemoryDoor {
    type Conn = FaultyConn<MemoryConn>;

    ghost seen = { memory_door };

    fn accept(&mut self) -> Accepted<FaultyConn<MemoryConn>>
        ensures accepts { Accepts door_conn (memory_door self.old) (memory_door self.new) result }

        // It answers what its script says; after the end of the script, that no connection is left.
        ensures answer { result ≡ accepted_at self.old.script }
        ensures after { self.new ≡ after_accept self.old }
    {
        match self.script.pop_front() {
            Some(DoorStep::Conn(conn)) => {
                self.given += 1;
                self.last = Some(DoorAnswer::Given);
                Accepted::Given(conn)
            }
            Some(DoorStep::Idle) => {
                self.last = Some(DoorAnswer::Idle);
                Accepted::Idle
            }
            None => {
                self.last = Some(DoorAnswer::Ended);
                Accepted::Ended
            }
        }
    }

    fn finish(&mut self, conn: FaultyConn<MemoryConn>, report: Report)
        requires { HasOut (memory_door self.old) }
        ensures finishes { Finishes (memory_door self.old) (memory_door self.new) (door_conn conn)
            report }
        ensures kept { self.new ≡ record self.old {
          finished = self.old.finished ++ record { conn = conn; report = report } ∷ [];
        } }
    {
        self.finished.push_reserved(HandedBackConn { conn, report });
    }
}
