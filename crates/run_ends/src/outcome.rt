ghost use Rattle.std.specs.Prelude.{◌≡◌, [], map, Option, None};
ghost use Rattle.std.specs.Option.{option_map};
ghost use Rattle.td_base.specs.DoorViews.{DoorView};
ghost use Rattle.td_base.specs.Upstreams.{UpstreamView};
ghost use Rattle.run_ends.specs.Commands.{PlainCommand};
ghost use Rattle.run_ends.specs.Outside.{World};
ghost use Rattle.run_ends.specs.Running.{HasRun, number_of};

use crate::status::Status;
use std::alloc::Global;

/// How a run ended: the exit status of the process, the doors that were served, and the server that
/// was followed. The doors are in the order of the network, and none if no door was served to its
/// end. The server is as it was left, if the network gave one.
#[derive(Drop)]
pub struct Outcome<D, U> {
    pub status: u8,
    pub doors: Vec<D>,
    pub up: Option<U>,
}

/// Like [`Outcome`], with a named status.
#[derive(Drop)]
pub struct Ending<D, U> {
    pub status: Status,
    pub doors: Vec<D>,
    pub up: Option<U>,
}

/// How serving doors ended.
#[derive(Drop)]
pub struct Served<D> {
    pub status: Status,
    pub doors: Vec<D>,
}

impl<D> Served<D> {
    /// An end without doors.
    pub fn closed(alloc: Global, status: Status) -> Served<D>
        ensures status { result.status ≡ status }
        ensures doors { result.doors.items ≡ [] }
    {
        Served {
            status,
            doors: Vec::new(alloc),
        }
    }

    /// Adds the server that the run followed, or none.
    pub fn after<U>(self, up: Option<U>) -> Ending<D, U>
        ensures status { result.status ≡ self.status }
        ensures doors { result.doors ≡ self.doors }
        ensures up { result.up ≡ up }
    {
        let Served { status, doors } = self;
        Ending { status, doors, up }
    }
}

impl<D, U> Ending<D, U> {
    /// An end without doors, of a run that followed no server.
    pub fn closed(alloc: Global, status: Status) -> Ending<D, U>
        ensures status { result.status ≡ status }
        ensures doors { result.doors.items ≡ [] }
        ensures up { result.up ≡ None }
        ensures ends { (asked : Option PlainCommand) (before after : World) (door : D → DoorView)
            (server : U → UpstreamView) → HasRun asked before after [] None status
            → HasRun asked before after (map door result.doors.items)
            (option_map server result.up) result.status }
    {
        let doors = Vec::new(alloc);
        Ending {
            status,
            doors,
            up: None,
        }
    }

    /// What the caller of the run receives.
    pub fn outcome(self) -> Outcome<D, U>
        ensures status { result.status ≡ number_of self.status }
        ensures doors { result.doors ≡ self.doors }
        ensures up { result.up ≡ self.up }
    {
        let Ending { status, doors, up } = self;
        Outcome {
            status: status.number(),
            doors,
            up,
        }
    }
}
