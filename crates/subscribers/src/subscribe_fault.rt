use std::error::Error;
use std::fmt;
use td_base::NoMemory;

/// Why a subscription was refused.
#[derive(Clone, Copy, Debug, PartialEq, Eq)]
pub enum SubscribeFault {
    NoMemory,
    /// There are [`MOST_SUBSCRIBERS`](crate::MOST_SUBSCRIBERS) subscribers already.
    WatchFull,
}

impl From<NoMemory> for SubscribeFault {
    ghost use Rattle.std.specs.Prelude.{◌≡◌};
    ghost use Rattle.subscribers.specs.declared.subscribe_fault.SubscribeFault.TheVariants.{NoMemory};

    ghost from_gives = { λ _ fault. fault ≡ NoMemory };

    fn from(_: NoMemory) -> Self {
        SubscribeFault::NoMemory
    }
}

impl fmt::Display for SubscribeFault {
    ghost use Rattle.std.specs.Prelude.{Some};
    ghost use Rattle.subscribers.specs.FaultText.{fault_text};

    ghost output = { λ fault. Some (fault_text fault) };

    fn fmt<W: fmt::Write>(&self, f: &mut fmt::Formatter<W>) -> fmt::Result {
        match self {
            SubscribeFault::NoMemory => write!(f, "0 NoMemory"),
            SubscribeFault::WatchFull => write!(f, "19 WatchFull"),
        }
    }
}

impl Error for SubscribeFault {}
