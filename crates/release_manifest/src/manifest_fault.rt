use std::error::Error;
use std::fmt;
use td_base::NoMemory;

/// The place of a member in a manifest. Zones and aliases are numbered from 0.
#[derive(Clone, Copy, Debug, PartialEq, Eq)]
pub enum Path {
    /// The whole document, printed `$`.
    Whole,
    Publisher,
    Version,
    Stamp,
    Zones,
    /// A member of the list of zones, printed like `zones[3]`.
    Zone(usize),
    Tzid(usize),
    File(usize),
    Aliases(usize),
    /// An alias of a zone, by both indexes, printed like `zones[3].aliases[0]`.
    Alias(usize, usize),
    Leaps,
    LeapFile,
    Expires,
}

impl fmt::Display for Path {
    ghost use Rattle.std.specs.Prelude.{Some};
    ghost use Rattle.release_manifest.specs.FaultText.{path_text};

    ghost output = { λ path. Some (path_text path) };

    fn fmt<W: fmt::Write>(&self, f: &mut fmt::Formatter<W>) -> fmt::Result {
        match self {
            Path::Whole => write!(f, "$"),
            Path::Publisher => write!(f, "publisher"),
            Path::Version => write!(f, "version"),
            Path::Stamp => write!(f, "stamp"),
            Path::Zones => write!(f, "zones"),
            Path::Zone(zone) => write!(f, "zones[{zone}]"),
            Path::Tzid(zone) => write!(f, "zones[{zone}].tzid"),
            Path::File(zone) => write!(f, "zones[{zone}].file"),
            Path::Aliases(zone) => write!(f, "zones[{zone}].aliases"),
            Path::Alias(zone, alias) => write!(f, "zones[{zone}].aliases[{alias}]"),
            Path::Leaps => write!(f, "leapseconds"),
            Path::LeapFile => write!(f, "leapseconds.file"),
            Path::Expires => write!(f, "leapseconds.expires"),
        }
    }
}

/// Why a text is not a manifest.
#[derive(Clone, Copy, Debug, PartialEq, Eq)]
pub enum ManifestFault {
    /// Out of memory.
    NoMemory,
    /// The text is not JSON in UTF-8 (RFC 8259).
    Syntax,
    /// A member is missing, or its JSON type is wrong.
    Field(Path),
    /// A member's text does not have the required form.
    Text(Path),
    /// The text is longer than [`crate::MOST_BYTES`] bytes.
    Long,
}

impl fmt::Display for ManifestFault {
    ghost use Rattle.std.specs.Prelude.{Some};
    ghost use Rattle.release_manifest.specs.FaultText.{fault_text};

    ghost output = { λ fault. Some (fault_text fault) };

    fn fmt<W: fmt::Write>(&self, f: &mut fmt::Formatter<W>) -> fmt::Result {
        match self {
            ManifestFault::NoMemory => write!(f, "0 NoMemory"),
            ManifestFault::Syntax => write!(f, "1 Syntax"),
            ManifestFault::Field(path) => write!(f, "2 Field {path}"),
            ManifestFault::Text(path) => write!(f, "3 Text {path}"),
            ManifestFault::Long => write!(f, "4 Long"),
        }
    }
}

impl Error for ManifestFault {}

impl From<NoMemory> for ManifestFault {
    ghost use Rattle.std.specs.Prelude.{◌≡◌};
    ghost use Rattle.release_manifest.specs.declared.manifest_fault.ManifestFault.TheVariants as f;

    ghost from_gives = { λ _ e. e ≡ f.NoMemory };

    fn from(_: NoMemory) -> Self {
        ManifestFault::NoMemory
    }
}
