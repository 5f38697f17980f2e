//! Zones made from files, and their states.
ghost use Rattle.std.specs.Prelude.{◌≡◌, IfOk};
ghost use Rattle.td_civil.specs.Bounds.{HasMeaning};

use case_lines::{Answer, CaseFault, Row, debug_text};
use catalogue::ZoneData;
use posix_footer::FooterFault;
use std::alloc::Global;
use td_base::Bytes;
use td_civil::{HI, LO, Local, Moment};
use tzif_reader::TzifFault;
use zone_meaning::{
    Zone, ZoneFault, at, file, first_difference, footer_agrees, has_printable_names, leap_count,
    zone_from_lists, zone_of,
};

/// The bytes that the hex digits at a position encode.
fn bytes_at(alloc: Global, row: &Row, at: usize) -> Result<Bytes, CaseFault> {
    Ok(Bytes::from(row.hex(alloc, at)?))
}

/// The zone of the file whose hex digits are at a position.
pub fn zone_at(alloc: Global, row: &Row, at: usize) -> Result<Zone, CaseFault> {
    match zone_of(alloc, bytes_at(alloc, row, at)?) {
        Ok(zone) => Ok(zone),
        Err(ZoneFault::NoMemory) => Err(CaseFault::NoMemory),
        Err(_) => Err(CaseFault::Strange),
    }
}

/// The moment at a position, which must be within the supported range.
pub fn moment_at(row: &Row, at: usize) -> Result<Moment, CaseFault>
    ensures { IfOk result (λ m. HasMeaning m.seconds) }
{
    let seconds = row.signed_number(at)?;
    if seconds < LO || seconds >= HI {
        return Err(CaseFault::Strange);
    }
    Ok(Moment { seconds })
}

/// `zone HEX`: the facts of a zone, or why the bytes are not one.
pub fn zone(alloc: Global, row: &Row) -> Answer {
    match zone_of(alloc, bytes_at(alloc, row, 0)?) {
        Ok(zone) => as_line(alloc, row, &zone),
        Err(ZoneFault::NoMemory) => Err(CaseFault::NoMemory),
        Err(fault) => Ok(format!(in alloc; "{fault:?}: {fault}")?.into_bytes()),
    }
}

/// How many leap lines a zone has, and whether it keeps its file, its footer agrees and its names
/// can be printed.
fn as_line(alloc: Global, row: &Row, zone: &Zone) -> Answer {
    let bytes = bytes_at(alloc, row, 0)?;
    let is_kept = file(zone) == bytes.as_slice() && zone.file_bytes() == bytes.as_slice();
    let is_same = is_same_again(alloc, zone, bytes)?;
    let (leaps, agrees) = (leap_count(zone), footer_agrees(zone));
    let printable = has_printable_names(zone);
    let kept = is_kept && is_same;
    Ok(format!(in alloc;
        "leaps {leaps}, kept {kept}, agrees {agrees}, printable {printable}"
    )?.into_bytes())
}

/// Whether a zone made from lists that are parsed again has the same file.
fn is_same_again(alloc: Global, zone: &Zone, bytes: Bytes) -> Result<bool, CaseFault> {
    match tzif_reader::read(alloc, bytes.as_slice()) {
        Ok(lists) => match zone_from_lists(alloc, bytes, lists) {
            Ok(again) => Ok(file(&again) == file(zone)),
            Err(_) => Ok(false),
        },
        Err(TzifFault::NoMemory) => Err(CaseFault::NoMemory),
        Err(_) => Ok(false),
    }
}

/// `printed FAULT`: the text of the fault.
pub fn fault_text(alloc: Global, row: &Row) -> Answer {
    let fault = match row.word(0)? {
        b"NoMemory" => ZoneFault::NoMemory,
        b"TooLate" => ZoneFault::Tzif(TzifFault::TooLate),
        b"Offset" => ZoneFault::Footer(FooterFault::Offset(3)),
        _ => return Err(CaseFault::Strange),
    };
    Ok(format!(in alloc; "{fault}")?.into_bytes())
}

/// `state HEX MOMENT`: the state at the moment.
pub fn state(alloc: Global, row: &Row) -> Answer {
    let moment = moment_at(row, 1)?;
    let zone = zone_at(alloc, row, 0)?;
    state_text(alloc, &at(&zone, moment))
}

/// Offset, daylight saving time and name.
pub fn state_text(alloc: Global, state: &Local) -> Answer {
    let (offset, dst) = (state.offset, state.dst);
    let mut out = Bytes::new(alloc);
    out.append(format!(in alloc; "{offset} {dst} ")?.as_bytes())?;
    out.append(state.name.as_slice())?;
    Ok(out.into_vec())
}

/// `differ HEX HEX`: the first moment at which two zones differ, or none.
pub fn differ(alloc: Global, row: &Row) -> Answer {
    let one = zone_at(alloc, row, 0)?;
    difference(alloc, row, &one)
}

/// The first moment at which a zone and that of the second word differ.
fn difference(alloc: Global, row: &Row, one: &Zone) -> Answer {
    let two = zone_at(alloc, row, 1)?;
    moment_text(alloc, first_difference(one, &two))
}

fn moment_text(alloc: Global, moment: Option<Moment>) -> Answer {
    match moment {
        None => Ok(Vec::from_slice(alloc, b"none")?),
        Some(moment) => debug_text(alloc, &moment.seconds),
    }
}
