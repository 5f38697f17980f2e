ghost use Rattle.std.specs.Prelude.{◌≡◌, if◌then◌else◌};
ghost use Rattle.run_ends.specs.Running.{number_of};
ghost use Rattle.run_ends.specs.Running.Server.{status_for};
ghost use Rattle.run_ends.specs.Running.Answering.{end_status};

use crate::talk_end::TalkEnd;
use td_base::End;

/// The exit status of a run.
#[derive(Clone, Copy, PartialEq, Eq)]
pub enum Status {
    /// 0: the work was done.
    Done,
    /// 1: the arguments are not in the grammar.
    Usage,
    /// 2: a folder, a zone file or the first release of a mirror was refused, or a zone file is
    /// absent.
    Refused,
    /// 3: a read of the store or of the input failed.
    NotRead,
    /// 4: a write failed.
    NotWritten,
    /// 5: a worker was not started.
    NotStarted,
    /// 6: the network failed, or one of its doors failed sixteen times.
    NoNetwork,
    /// 7: the first sync of a mirror ended with a fault.
    NotSynced,
    /// 70: memory ran out.
    NoMemory,
}

impl Status {
    /// The exit status of the process.
    pub fn number(self) -> u8
        ensures { result ≡ number_of self }
    {
        match self {
            Status::Done => 0,
            Status::Usage => 1,
            Status::Refused => 2,
            Status::NotRead => 3,
            Status::NotWritten => 4,
            Status::NotStarted => 5,
            Status::NoNetwork => 6,
            Status::NotSynced => 7,
            Status::NoMemory => 70,
        }
    }
}

/// The status for the end of the one connection of a run.
pub fn status_of(end: End) -> Status
    ensures { result ≡ end_status end }
{
    match end {
        End::Closed => Status::Done,
        End::ReadFault => Status::NotRead,
        End::WriteFault => Status::NotWritten,
        End::NoMemory => Status::NoMemory,
    }
}

/// The status for the end of a console session next to workers. A worker may have ended because its
/// door is worn.
pub fn status_for(end: TalkEnd, worn: bool) -> Status
    ensures { result ≡ status_for end worn }
{
    match end {
        TalkEnd::Quit | TalkEnd::InputEnded => served(worn),
        TalkEnd::NotRead => Status::NotRead,
        TalkEnd::NotWritten => Status::NotWritten,
    }
}

/// The status after the work was done, unless a door is worn.
fn served(worn: bool) -> Status
    ensures { result ≡ (if worn then Status.NoNetwork else Status.Done) }
{
    if worn {
        Status::NoNetwork
    } else {
        Status::Done
    }
}
