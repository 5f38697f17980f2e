ghost use Rattle.std.specs.Prelude.{◌≡◌, ◌&&◌, ◌||◌, nat_le, length, IfOk, OnErr};
ghost use Rattle.http_request.specs.Readings.{FindsStep};
ghost use Rattle.http_request.specs.Scans.{IsScanned, Searches};
ghost use Rattle.http_request.specs.Steps.{IsTaken};
ghost use Rattle.http_request.specs.declared.limits.TheConstants.{MOST_HEAD_BYTES, MOST_FEEDS};
ghost use Rattle.http_request.specs.declared.scan.Search.TheVariants as search;

use crate::limits::{MOST_FEEDS, MOST_HEAD_BYTES};
use crate::reading::read;
use crate::scan::{Scan, Search, find_end};
use crate::step::Step;
use http::StatusCode;
use std::alloc::Global;
use td_base::NoMemory;

/// Makes one step at the beginning of the bytes, which were already searched up to `scan`.
pub fn look(alloc: Global, bytes: &[u8], scan: Scan) -> Result<Step, NoMemory>
    requires { IsScanned bytes.now scan }
    ensures finds { IfOk result (FindsStep bytes.now) }
    ensures err { OnErr result (IsTaken bytes.now) }
{
    match find_end(bytes, scan) {
        Search::Open(scan) => Ok(wait(bytes, scan)),
        Search::End(len, feeds) => read_window(alloc, bytes, len, feeds),
    }
}

/// Whether `len` bytes with `feeds` line feeds leave no room for a head.
pub fn is_full(len: usize, feeds: usize) -> bool
    ensures { result ≡ (nat_le MOST_HEAD_BYTES len || nat_le MOST_FEEDS feeds) }
{
    len >= MOST_HEAD_BYTES || feeds >= MOST_FEEDS
}

/// Whether a head of `len` bytes with `feeds` line feeds is within the limits.
pub fn is_within(len: usize, feeds: usize) -> bool
    ensures { result ≡ (nat_le len MOST_HEAD_BYTES && nat_le feeds MOST_FEEDS) }
{
    len <= MOST_HEAD_BYTES && feeds <= MOST_FEEDS
}

/// The step if no head ends in the bytes: wait while there is room, otherwise refuse with 431.
fn wait(bytes: &[u8], scan: Scan) -> Step
    requires { Searches bytes.now (search.Open scan) }
    ensures { FindsStep bytes.now result }
{
    let full = is_full(bytes.len(), scan.feeds);
    if full {
        Step::Refused(StatusCode::REQUEST_HEADER_FIELDS_TOO_LARGE.as_u16())
    } else {
        Step::Waiting(scan)
    }
}

/// Reads the bytes up to the end of the head, if that is within the limits.
fn read_window(alloc: Global, bytes: &[u8], len: usize, feeds: usize) -> Result<Step, NoMemory>
    requires { Searches bytes.now (search.End len feeds) }
    ensures finds { IfOk result (FindsStep bytes.now) }
    ensures err { OnErr result (IsTaken bytes.now) }
{
    let within = is_within(len, feeds);
    if !within {
        let too_large = StatusCode::REQUEST_HEADER_FIELDS_TOO_LARGE.as_u16();
        return Ok(Step::Refused(too_large));
    }
    let step = read(alloc, &bytes[..len])?;
    Ok(step)
}
