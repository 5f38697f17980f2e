use std::error::Error;
use std::fmt;

/// Why a text is not a TZ string: its first fault from the left. A fault carries a place in bytes
/// from the beginning, at which the faulty or missing item begins (POSIX, section 8.3; RFC 9636,
/// section 3.3.2).
#[derive(Clone, Copy, Debug, PartialEq, Eq)]
pub enum FooterFault {
    /// Neither 3 to 32 letters, nor 3 to 32 letters, digits, `+` and `-` between `<` and `>`.
    Name(usize),
    /// The item is not an offset of less than 24 hours. It is also the fault of a missing daylight
    /// offset when the default, an hour ahead of standard time, is out of range.
    Offset(usize),
    /// The text ends after the state in daylight saving time.
    NoRule,
    /// Neither `Jn` nor `n` nor `Mm.w.d` within its ranges, or no `,` before the second date.
    Date(usize),
    /// After `/`, no time of less than 168 hours to either side of midnight.
    Time(usize),
    /// The text continues after its end, or the `,` before the dates is missing.
    Rest(usize),
}

impl fmt::Display for FooterFault {
    ghost use Rattle.std.specs.Prelude.{Some};
    ghost use Rattle.posix_footer.specs.FaultText.{fault_text};

    ghost output = { λ fault. Some (fault_text fault) };

    fn fmt<W: fmt::Write>(&self, f: &mut fmt::Formatter<W>) -> fmt::Result {
        match self {
            FooterFault::Name(place) => write!(f, "1 Name {place}"),
            FooterFault::Offset(place) => write!(f, "2 Offset {place}"),
            FooterFault::NoRule => write!(f, "3 NoRule"),
            FooterFault::Date(place) => write!(f, "4 Date {place}"),
            FooterFault::Time(place) => write!(f, "5 Time {place}"),
            FooterFault::Rest(place) => write!(f, "6 Rest {place}"),
        }
    }
}

impl Error for FooterFault {}
