use std::error::Error;
use std::fmt;
use td_base::{Bytes, NoMemory};

/// Why a sync ended before the mirror was in sync. Exchanges are counted from 1 in the sync.
#[derive(Debug, Drop)]
pub enum SyncFault {
    NoMemory,
    /// The exchange with the upstream failed.
    UpstreamFault,
    /// The answer of the exchange of this number is malformed. The second value is
    /// [`MOST_ANSWER`](crate::MOST_ANSWER) if the answer has that many bytes or more. Otherwise it
    /// is the place of a `BadReply` or, for a list, that of a `BadList`. The third value is the
    /// answer.
    BadAnswer(u64, usize, Bytes),
    /// The answer of the exchange of this number has this status. It is not 200, and the answer is
    /// not the refusal of the token in the request.
    Refused(u64, u16),
    /// This many lists did not bring the mirror in sync.
    NotSettled(usize),
}

impl From<NoMemory> for SyncFault {
    ghost use Rattle.std.specs.Prelude.{◌≡◌};
    ghost use Rattle.mirror.specs.declared.sync_fault.SyncFault.TheVariants.{NoMemory};

    ghost from_gives = { λ _ fault. fault ≡ NoMemory };

    fn from(_: NoMemory) -> Self {
        SyncFault::NoMemory
    }
}

impl fmt::Display for SyncFault {
    ghost use Rattle.std.specs.Prelude.{Some};
    ghost use Rattle.mirror.specs.FaultText.{fault_text};

    ghost output = { λ fault. Some (fault_text fault) };

    fn fmt<W: fmt::Write>(&self, f: &mut fmt::Formatter<W>) -> fmt::Result {
        match self {
            SyncFault::NoMemory => write!(f, "0 NoMemory"),
            SyncFault::UpstreamFault => write!(f, "1 UpstreamFault"),
            SyncFault::BadAnswer(exchange, place, _) => write!(f, "2 BadAnswer {exchange} {place}"),
            SyncFault::Refused(exchange, status) => write!(f, "3 Refused {exchange} {status}"),
            SyncFault::NotSettled(lists) => write!(f, "4 NotSettled {lists}"),
        }
    }
}

impl Error for SyncFault {}
