//! Faults, as they are printed, that the tables do not reach at each place.
use crate::answering::strange;
use case_lines::{Answer, CaseFault, Row};
use release_manifest::{ManifestFault, Path};
use std::alloc::Global;

/// `printed FAULT`, with its path and numbers, if it has them.
pub fn fault_text(alloc: Global, row: &Row) -> Answer {
    let fault = match row.text(0)? {
        "NoMemory" => ManifestFault::NoMemory,
        "Syntax" => ManifestFault::Syntax,
        "Long" => ManifestFault::Long,
        "Field" => ManifestFault::Field(path(row)?),
        "Text" => ManifestFault::Text(path(row)?),
        _ => return strange(),
    };
    case_lines::display_text(alloc, &fault)
}

fn path(row: &Row) -> Result<Path, CaseFault> {
    match row.text(1)? {
        "Whole" => Ok(Path::Whole),
        "Publisher" => Ok(Path::Publisher),
        "Version" => Ok(Path::Version),
        "Stamp" => Ok(Path::Stamp),
        "Zones" => Ok(Path::Zones),
        "Leaps" => Ok(Path::Leaps),
        "LeapFile" => Ok(Path::LeapFile),
        "Expires" => Ok(Path::Expires),
        _ => path_of_zone(row),
    }
}

fn path_of_zone(row: &Row) -> Result<Path, CaseFault> {
    let zone = row.number(2)? as usize;
    match row.text(1)? {
        "Zone" => Ok(Path::Zone(zone)),
        "Tzid" => Ok(Path::Tzid(zone)),
        "File" => Ok(Path::File(zone)),
        "Aliases" => Ok(Path::Aliases(zone)),
        "Alias" => Ok(Path::Alias(zone, row.number(3)? as usize)),
        _ => strange(),
    }
}
