ghost use Rattle.std.specs.Prelude.{◌≡◌};
ghost use Rattle.zone_meaning.specs.declared.zone_fault.ZoneFault.TheVariants as variant;

use posix_footer::FooterFault;
use std::error::Error;
use std::fmt;
use td_base::NoMemory;
use tzif_reader::TzifFault;

/// Why bytes are not a zone. It prints as the fault inside it does.
#[derive(Clone, Copy, Debug, PartialEq, Eq)]
pub enum ZoneFault {
    NoMemory,
    /// The bytes are not a zone file.
    Tzif(TzifFault),
    /// The bytes are a zone file, but its footer is a text that is not a TZ string.
    Footer(FooterFault),
}

impl From<NoMemory> for ZoneFault {
    ghost from_gives = { λ _ e. e ≡ variant.NoMemory };

    fn from(_: NoMemory) -> Self {
        ZoneFault::NoMemory
    }
}

impl From<TzifFault> for ZoneFault {
    ghost use Rattle.zone_meaning.specs.Faults.{in_file};

    ghost from_gives = { λ e fault. fault ≡ in_file e };

    fn from(fault: TzifFault) -> Self {
        match fault {
            TzifFault::NoMemory => ZoneFault::NoMemory,
            fault => ZoneFault::Tzif(fault),
        }
    }
}

impl From<FooterFault> for ZoneFault {
    ghost use Rattle.zone_meaning.specs.declared.zone_fault.ZoneFault.TheVariants.{Footer};

    ghost from_gives = { λ e fault. fault ≡ Footer e };

    fn from(fault: FooterFault) -> Self {
        ZoneFault::Footer(fault)
    }
}

impl fmt::Display for ZoneFault {
    ghost use Rattle.std.specs.Prelude.{Some};
    ghost use Rattle.zone_meaning.specs.FaultText.{fault_text};

    ghost output = { λ f. Some (fault_text f) };

    fn fmt<W: fmt::Write>(&self, f: &mut fmt::Formatter<W>) -> fmt::Result {
        match self {
            ZoneFault::NoMemory => write!(f, "0 NoMemory"),
            ZoneFault::Tzif(fault) => write!(f, "{fault}"),
            ZoneFault::Footer(fault) => write!(f, "{fault}"),
        }
    }
}

impl Error for ZoneFault {}
