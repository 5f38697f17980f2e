use std::error::Error;
use std::fmt;
use td_base::NoMemory;

/// Why a text is not a pattern.
#[derive(Clone, Copy, Debug, PartialEq, Eq)]
pub enum BadPattern {
    /// Out of memory.
    NoMemory,
    /// The byte position, from 0, of a `*` that is neither first nor last, or of a backslash
    /// without `*` or a backslash after it.
    BadPattern(usize),
}

impl fmt::Display for BadPattern {
    ghost use Rattle.std.specs.Prelude.{Some};
    ghost use Rattle.find_pattern.specs.FaultText.{fault_text};

    ghost output = { λ fault. Some (fault_text fault) };

    fn fmt<W: fmt::Write>(&self, f: &mut fmt::Formatter<W>) -> fmt::Result {
        match self {
            BadPattern::NoMemory => write!(f, "0 NoMemory"),
            BadPattern::BadPattern(place) => write!(f, "1 BadPattern {place}"),
        }
    }
}

impl Error for BadPattern {}

impl From<NoMemory> for BadPattern {
    ghost use Rattle.std.specs.Prelude.{◌≡◌};
    ghost use Rattle.find_pattern.specs.declared.pattern_fault.BadPattern.TheVariants.{NoMemory};

    ghost from_gives = { λ _ fault. fault ≡ NoMemory };

    fn from(_: NoMemory) -> Self {
        BadPattern::NoMemory
    }
}
