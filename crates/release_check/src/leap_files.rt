//! The table of leap seconds of a release.
ghost use Rattle.std.specs.Prelude.{◌≡◌, IfOk, IfSome, IsTrue, Some};
ghost use Rattle.td_civil.specs.Reading.{is_date_text};
ghost use Rattle.zone_meaning.specs.Sound.{IsSoundLeaps};
ghost use Rattle.release_check.specs.Found.{FindsIn, IsTableIn};
ghost use Rattle.release_check.specs.Judged.{JudgesUnread, of_leap_reader, of_table};
ghost use Rattle.release_check.specs.LeapFile.{leap_file_fault, table_of};
ghost use Rattle.release_check.specs.Faults.{has_date};

use crate::check_fault::{CheckFault, LeapFileFault};
use crate::files::{ZONE_ROOM, read_in};
use catalogue::Leaps;
use leap_table::{LeapFault, from_file};
use release_manifest::ManifestLeaps;
use std::alloc::Global;
use td_base::{Bytes, Store};
use tzif_reader::{TzifFault, leap_lines_fit};

/// The table of leap seconds that a manifest names, if it names one, or the fault of its file.
pub fn read_table<S: Store>(
    alloc: Global,
    dir: &[u8],
    leaps: &Option<ManifestLeaps>,
    store: &mut S,
) -> Result<Option<Leaps>, CheckFault>
    requires date { IsTrue (has_date leaps.now) }
    ensures found { FindsIn (S.seen store.old) (S.seen store.new) result
        (IsTableIn dir.now leaps.now result) }
    ensures sound { IfOk result (λ table. IfSome table IsSoundLeaps) }
{
    match leaps {
        None => Ok(None),
        Some(leaps) => read_named(alloc, dir, leaps, store),
    }
}

/// The table for this leap-second entry of a manifest.
fn read_named<S: Store>(
    alloc: Global,
    dir: &[u8],
    leaps: &ManifestLeaps,
    store: &mut S,
) -> Result<Option<Leaps>, CheckFault>
    requires date { IsTrue (is_date_text leaps.now.expires) }
    ensures found { FindsIn (S.seen store.old) (S.seen store.new) result
        (IsTableIn dir.now (Some leaps.now) result) }
    ensures sound { IfOk result (λ table. IfSome table IsSoundLeaps) }
{
    let file = read_in(alloc, dir, leaps.file.as_slice(), ZONE_ROOM, store)?;
    let table = table_in(alloc, &file, leaps.expires.as_slice())?;
    Ok(Some(table))
}

/// The table of a file.
fn table_in(alloc: Global, file: &Bytes, expires: &[u8]) -> Result<Leaps, CheckFault>
    ensures table { IfOk result (λ table. table ≡ table_of file.now expires.now) }
    ensures judged { JudgesUnread (leap_file_fault file.now) result }
{
    let lists = match tzif_reader::read(alloc, file.as_slice()) {
        Ok(lists) => lists,
        Err(fault) => return Err(of_leap_reader(fault)),
    };
    leap_lines_fit();
    match from_file(alloc, &lists, file.as_slice(), expires) {
        Ok(table) => Ok(table),
        Err(fault) => Err(of_table(fault)),
    }
}

/// Converts the reader's fault to that of a folder.
fn of_leap_reader(fault: TzifFault) -> CheckFault
    ensures { result ≡ of_leap_reader fault }
{
    match fault {
        TzifFault::NoMemory => CheckFault::NoMemory,
        fault => CheckFault::Leap(LeapFileFault::File(fault)),
    }
}

/// Converts the table's fault to that of a folder.
fn of_table(fault: LeapFault) -> CheckFault
    ensures { result ≡ of_table fault }
{
    match fault {
        LeapFault::NoMemory => CheckFault::NoMemory,
        LeapFault::Step(line) => CheckFault::Leap(LeapFileFault::Step(line)),
        LeapFault::Midnight(line) => CheckFault::Leap(LeapFileFault::Midnight(line)),
    }
}
