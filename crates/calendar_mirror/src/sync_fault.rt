use mirror::SyncFault;
use std::error::Error;
use std::fmt;
use td_base::NoMemory;
use vtimezone_reader::CalendarFault;

/// Why a sync ended before the mirror was settled. Exchanges are counted from 1 in the sync.
#[derive(Debug, Drop)]
pub enum CalendarSyncFault {
    /// One of the faults of any sync.
    Sync(SyncFault),
    /// The answer of the exchange of this number has status 200, but its text is not a calendar.
    BadCalendar(u64, CalendarFault),
    /// The answer of the exchange of this number is a calendar of another zone.
    WrongName(u64),
}

impl From<NoMemory> for CalendarSyncFault {
    ghost use Rattle.std.specs.Prelude.{◌≡◌};
    ghost use Rattle.mirror.specs.declared.sync_fault.SyncFault.TheVariants.{NoMemory};
    ghost use Rattle.calendar_mirror.specs.declared.sync_fault.CalendarSyncFault.TheVariants.{Sync};

    ghost from_gives = { λ _ fault. fault ≡ Sync NoMemory };

    fn from(_: NoMemory) -> Self {
        CalendarSyncFault::Sync(SyncFault::NoMemory)
    }
}

impl fmt::Display for CalendarSyncFault {
    ghost use Rattle.std.specs.Prelude.{Some};
    ghost use Rattle.calendar_mirror.specs.FaultText.{fault_text};

    ghost output = { λ fault. Some (fault_text fault) };

    fn fmt<W: fmt::Write>(&self, f: &mut fmt::Formatter<W>) -> fmt::Result {
        match self {
            CalendarSyncFault::Sync(fault) => write!(f, "{fault}"),
            CalendarSyncFault::BadCalendar(exchange, fault) => {
                write!(f, "5 BadCalendar {exchange} {fault}")
            }
            CalendarSyncFault::WrongName(exchange) => write!(f, "6 WrongName {exchange}"),
        }
    }
}

impl Error for CalendarSyncFault {}
