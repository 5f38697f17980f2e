ghost use Rattle.std.specs.Prelude.{◌≡◌, ◌≤◌, ◌++◌, length, Some, IfOk, OnOk};
ghost use Rattle.zone_meaning.specs.ZoneHistories.{ForEachZoneHistory};
ghost use Rattle.made_load.specs.Requests as requests;

use crate::targets::{since_target, year_target, zone_target};
use crate::zones::{ZONES, tzid_of};
use catalogue::Catalogue;
use std::alloc::Global;
use td_base::{Bytes, NoMemory, Token};
use zone_meaning::Zone;

/// The header line of a request for a TZif file.
const ACCEPT: &[u8] = b"Accept: application/tzif\r\n";

/// The bytes of the requests that are served after release `r`, the last one of the catalogue. If
/// the requested zone is not in the catalogue, the last request has no If-None-Match line.
pub fn requests(alloc: Global, catalogue: &Catalogue<Zone>, r: u32) -> Result<Bytes, NoMemory>
    requires { ForEachZoneHistory catalogue.now (λ H. r ≡ length H) }
    ensures { ForEachZoneHistory catalogue.now (λ H.
        IfOk result (λ bytes. bytes ≡ requests.made_requests H)) }
{
    let tzid = tzid_of(alloc, r % ZONES)?;
    let token = token_before(catalogue);
    let held = held_line(alloc, catalogue, &tzid)?;
    requests_with(alloc, &token, &tzid, &held)
}

/// The token of the place before the last, or of the only place.
fn token_before(catalogue: &Catalogue<Zone>) -> Token
    ensures { ForEachZoneHistory catalogue.now (λ H. result ≡ requests.token_before H) }
{
    catalogue.token(place_before(catalogue.count()))
}

/// The place before this one, or 1 for the first.
fn place_before(place: u32) -> u32
    requires { 1 ≤ place }
    ensures before { result ≡ requests.place_before place }
    ensures some { 1 ≤ result }
    ensures within { result ≤ place }
{
    if place == 1 { 1 } else { place - 1 }
}

/// The If-None-Match line with the tag of a zone, or nothing if the zone does not exist.
fn held_line(alloc: Global, catalogue: &Catalogue<Zone>, tzid: &Bytes) -> Result<Bytes, NoMemory>
    ensures { ForEachZoneHistory catalogue.now (λ H. IfOk result (λ line.
        line ≡ requests.held_line (requests.tag_named H tzid.now))) }
{
    match catalogue.find_name(tzid.as_slice()) {
        Some(place) => tag_line(alloc, &catalogue.entry(place).tag),
        None => Ok(Bytes::new(alloc)),
    }
}

/// The If-None-Match line for a file, with the tag of its zone's content.
fn tag_line(alloc: Global, tag: &[u8]) -> Result<Bytes, NoMemory>
    ensures { IfOk result (λ line. line ≡ requests.held_line (Some tag.now)) }
{
    let mut line = Bytes::from_slice(alloc, b"If-None-Match: \"")?;
    line.append(tag)?;
    line.append(b".t\"\r\n")?;
    Ok(line)
}

/// The requests for a token, a zone and its If-None-Match line.
#[tactic(auto, unfolding(crate::specs::Requests::requests_with))]
fn requests_with(
    alloc: Global,
    token: &Token,
    tzid: &Bytes,
    held: &Bytes,
) -> Result<Bytes, NoMemory>
    ensures { IfOk result (λ bytes. bytes ≡ requests.requests_with token.now tzid.now held.now) }
{
    let mut bytes = Bytes::new(alloc);
    put_list_requests(alloc, &mut bytes, token)?;
    put_zone_requests(alloc, &mut bytes, tzid, held)?;
    Ok(bytes)
}

/// Appends the requests for lists.
#[tactic(auto, unfolding(crate::specs::Requests::list_requests))]
fn put_list_requests(alloc: Global, out: &mut Bytes, token: &Token) -> Result<(), NoMemory>
    ensures { OnOk result (out.new ≡ out.old ++ requests.list_requests token.now) }
{
    let since = since_target(alloc, token.as_slice())?;
    put_head(out, b"/tzdist/zones", b"")?;
    put_head(out, since.as_slice(), b"")?;
    Ok(())
}

/// Appends the requests for a zone.
#[tactic(auto, unfolding(crate::specs::Requests::zone_requests))]
fn put_zone_requests(
    alloc: Global,
    out: &mut Bytes,
    tzid: &Bytes,
    held: &Bytes,
) -> Result<(), NoMemory>
    ensures { OnOk result (out.new ≡ out.old ++ requests.zone_requests tzid.now held.now) }
{
    let zone = zone_target(alloc, tzid.as_slice())?;
    let year = year_target(alloc, tzid.as_slice())?;
    let lines = again_lines(alloc, held)?;
    put_head(out, zone.as_slice(), ACCEPT)?;
    put_head(out, year.as_slice(), b"")?;
    put_head(out, zone.as_slice(), lines.as_slice())?;
    Ok(())
}

/// The header lines of the last request.
#[tactic(auto, unfolding(crate::specs::Requests::accept_line))]
fn again_lines(alloc: Global, held: &Bytes) -> Result<Bytes, NoMemory>
    ensures { IfOk result (λ lines. lines ≡ requests.accept_line ++ held.now) }
{
    let mut lines = Bytes::from_slice(alloc, ACCEPT)?;
    lines.append(held.as_slice())?;
    Ok(lines)
}

/// Appends the head of a GET of a target, with further header lines.
#[tactic(auto, unfolding(crate::specs::Requests::head_text))]
fn put_head(out: &mut Bytes, target: &[u8], lines: &[u8]) -> Result<(), NoMemory>
    ensures { OnOk result (out.new ≡ out.old ++ requests.head_text target.now lines.now) }
{
    out.append(b"GET ")?;
    out.append(target)?;
    out.append(b" HTTP/1.1\r\nHost: x\r\n")?;
    out.append(lines)?;
    out.append(b"\r\n")?;
    Ok(())
}
