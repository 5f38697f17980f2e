use std::error::Error;
use std::fmt;
use td_base::NoMemory;

/// Why bytes are not a list of time zones.
#[derive(Clone, Copy, Debug, PartialEq, Eq)]
pub enum BadList {
    /// Memory ran out.
    NoMemory,
    /// The number of the first bad entry, counted from 1. It is 0 where the document itself is not
    /// a list, or has more zones or names than a release may have.
    BadList(usize),
}

impl fmt::Display for BadList {
    ghost use Rattle.std.specs.Prelude.{Some};
    ghost use Rattle.json_forms.specs.FaultText.{fault_text};

    ghost output = { λ fault. Some (fault_text fault) };

    fn fmt<W: fmt::Write>(&self, f: &mut fmt::Formatter<W>) -> fmt::Result {
        match self {
            BadList::NoMemory => write!(f, "0 NoMemory"),
            BadList::BadList(place) => write!(f, "1 BadList {place}"),
        }
    }
}

impl Error for BadList {}

impl From<NoMemory> for BadList {
    ghost use Rattle.std.specs.Prelude.{◌≡◌};
    ghost use Rattle.json_forms.specs.declared.list_fault.BadList.TheVariants.{NoMemory};

    ghost from_gives = { λ _ fault. fault ≡ NoMemory };

    fn from(_: NoMemory) -> Self {
        BadList::NoMemory
    }
}
