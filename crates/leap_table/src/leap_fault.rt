ghost use Rattle.std.specs.Prelude.{◌≡◌};

use std::error::Error;
use std::fmt;
use td_base::NoMemory;

/// Why the leap-second records of a file are not a table of leap seconds. It holds the number of
/// the first record that does not fit, counted from 0. Of two faults of one record, `Step` comes
/// first. It prints as its number, its name and its value.
#[derive(Clone, Copy, Debug, PartialEq, Eq)]
pub enum LeapFault {
    NoMemory,
    /// The record is not later than the one before (for the first: than the beginning of 1972), or
    /// is at or after 9999-01-01T00:00:00Z. Or its correction is not one second more.
    ///
    /// The last of several records may repeat the correction before it. It then states when the
    /// table expires.
    Step(usize),
    /// The record's correction does not begin at the start of a day in UTC.
    Midnight(usize),
}

impl From<NoMemory> for LeapFault {
    ghost use Rattle.leap_table.specs.declared.leap_fault.LeapFault.TheVariants as fault;

    ghost from_gives = { λ _ e. e ≡ fault.NoMemory };

    fn from(_: NoMemory) -> Self {
        LeapFault::NoMemory
    }
}

impl fmt::Display for LeapFault {
    ghost use Rattle.std.specs.Prelude.{Some};
    ghost use Rattle.leap_table.specs.FaultText.{fault_text};

    ghost output = { λ fault. Some (fault_text fault) };

    fn fmt<W: fmt::Write>(&self, f: &mut fmt::Formatter<W>) -> fmt::Result {
        match self {
            LeapFault::NoMemory => write!(f, "0 NoMemory"),
            LeapFault::Step(line) => write!(f, "1 Step {line}"),
            LeapFault::Midnight(line) => write!(f, "2 Midnight {line}"),
        }
    }
}

impl Error for LeapFault {}
