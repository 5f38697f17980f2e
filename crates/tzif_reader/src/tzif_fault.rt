ghost use Rattle.std.specs.Prelude.{◌≡◌};
ghost use Rattle.tzif_reader.specs.declared.tzif_fault.TzifFault.TheVariants as variant;

use std::error::Error;
use std::fmt;
use td_base::NoMemory;

/// Why a list of bytes is not a zone file: its first fault, with the least index. Places and
/// lengths are in bytes from the beginning of the file; indexes count from 0. It prints as its
/// number, its name and its value.
#[derive(Clone, Copy, Debug, PartialEq, Eq)]
pub enum TzifFault {
    NoMemory,
    /// A header does not begin with `TZif`.
    Magic,
    /// The version is not `2`, `3` or `4`, or the two headers differ in it.
    Version,
    /// The file ends before the end of the header or block that begins at this place.
    Short(usize),
    /// There is no type or no designation, or indicators cover only some of the types.
    Counts,
    /// This transition is not after the previous one.
    Order(usize),
    /// This transition's type is not in the file.
    TypeNumber(usize),
    /// This type's name has no end, or more than 32 bytes.
    Designation(usize),
    /// A flag of this type is neither 0 nor 1.
    Indicator(usize),
    /// This type's offset is below -86399 or above 86399 seconds.
    OffsetBeyond(usize),
    /// The file has more than [`MOST_BYTES`](crate::MOST_BYTES) bytes or
    /// [`MOST_TRANSITIONS`](crate::MOST_TRANSITIONS) transitions.
    TooLarge,
    /// The last transition is at or after 9999-01-01T00:00:00Z.
    TooLate,
    /// The second block is not followed by a text between line feeds.
    FooterFrame,
    /// Bytes follow the footer from this place on.
    Trailing(usize),
}

impl fmt::Display for TzifFault {
    ghost use Rattle.std.specs.Prelude.{Some};
    ghost use Rattle.tzif_reader.specs.FaultText.{fault_text};

    ghost output = { λ fault. Some (fault_text fault) };

    fn fmt<W: fmt::Write>(&self, f: &mut fmt::Formatter<W>) -> fmt::Result {
        match self {
            TzifFault::NoMemory => write!(f, "0 NoMemory"),
            TzifFault::Magic => write!(f, "1 Magic"),
            TzifFault::Version => write!(f, "2 Version"),
            TzifFault::Short(place) => write!(f, "3 Short {place}"),
            TzifFault::Counts => write!(f, "4 Counts"),
            TzifFault::Order(place) => write!(f, "5 Order {place}"),
            TzifFault::TypeNumber(place) => write!(f, "6 TypeNumber {place}"),
            TzifFault::Designation(place) => write!(f, "7 Designation {place}"),
            TzifFault::Indicator(place) => write!(f, "8 Indicator {place}"),
            TzifFault::OffsetBeyond(place) => write!(f, "9 OffsetBeyond {place}"),
            TzifFault::TooLarge => write!(f, "10 TooLarge"),
            TzifFault::TooLate => write!(f, "11 TooLate"),
            TzifFault::FooterFrame => write!(f, "12 FooterFrame"),
            TzifFault::Trailing(place) => write!(f, "13 Trailing {place}"),
        }
    }
}

impl Error for TzifFault {}

impl From<NoMemory> for TzifFault {
    ghost from_gives = { λ _ e. e ≡ variant.NoMemory };

    fn from(_: NoMemory) -> Self {
        TzifFault::NoMemory
    }
}
