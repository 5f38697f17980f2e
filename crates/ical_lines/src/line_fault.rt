use std::error::Error;
use std::fmt;
use td_base::NoMemory;

/// Why a text is not a list of content lines.
#[derive(Clone, Copy, Debug, PartialEq, Eq)]
pub enum BadLine {
    /// Out of memory.
    NoMemory,
    /// The line that begins at this byte position does not end with CRLF.
    BadLine(usize),
}

impl fmt::Display for BadLine {
    ghost use Rattle.std.specs.Prelude.{Some};
    ghost use Rattle.ical_lines.specs.FaultText.{fault_text};

    ghost output = { λ fault. Some (fault_text fault) };

    fn fmt<W: fmt::Write>(&self, f: &mut fmt::Formatter<W>) -> fmt::Result {
        match self {
            BadLine::NoMemory => write!(f, "0 NoMemory"),
            BadLine::BadLine(place) => write!(f, "1 BadLine {place}"),
        }
    }
}

impl Error for BadLine {}

impl From<NoMemory> for BadLine {
    ghost use Rattle.std.specs.Prelude.{◌≡◌};
    ghost use Rattle.ical_lines.specs.declared.line_fault.BadLine.TheVariants.{NoMemory};

    ghost from_gives = { λ _ fault. fault ≡ NoMemory };

    fn from(_: NoMemory) -> Self {
        BadLine::NoMemory
    }
}
