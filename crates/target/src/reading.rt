//! The table of actions by the segments of a path.
ghost use Rattle.std.specs.Prelude.{◌≡◌, IfOk};
ghost use Rattle.target.specs.Actions as actions;

use crate::parameters::parameter;
use crate::segments::{cut_query, decode_path, path_and_query};
use crate::{Asked, Param};
use std::alloc::Global;
use td_base::{Bytes, NoMemory};

/// The action of a request target, in origin form or absolute form (RFC 9112, section 3.2). A
/// target in any other form is `Unknown`.
///
/// A path is cut at its slashes, and each segment is percent-decoded separately. A query is decoded
/// as a form, so `+` is a space there, but a plus sign in a path. Names are case-sensitive.
#[tactic(auto, unfolding(crate::specs::Actions::asks))]
pub fn read(alloc: Global, target: &[u8]) -> Result<Asked, NoMemory>
    ensures { IfOk result (λ asked. asked ≡ actions.asks target.now) }
{
    let (path, query) = cut_query(path_and_query(target));
    match decode_path(alloc, path)? {
        Some(segments) => ask(alloc, segments.as_slice(), query),
        None => Ok(Asked::Unknown),
    }
}

/// The action of the segments.
#[tactic(auto, unfolding(crate::specs::Actions::asked_action))]
fn ask(alloc: Global, segments: &[Bytes], query: &[u8]) -> Result<Asked, NoMemory>
    ensures { IfOk result (λ asked. asked ≡ actions.asked_action segments.now query.now) }
{
    match segments {
        [root, name] => ask_document(alloc, root.as_slice(), name.as_slice(), query),
        [root, zones, tzid] => ask_zone(alloc, root, zones, tzid, query),
        [root, zones, tzid, last] => ask_observances(alloc, root, zones, tzid, last, query),
        _ => Ok(Asked::Unknown),
    }
}

/// The action of two segments.
#[tactic(auto, unfolding(crate::specs::Actions::document))]
fn ask_document(alloc: Global, root: &[u8], name: &[u8], query: &[u8]) -> Result<Asked, NoMemory>
    ensures { IfOk result (λ asked. asked ≡ actions.document root.now name.now query.now) }
{
    if root == b".well-known".as_slice() && name == b"timezone".as_slice() {
        return Ok(Asked::WellKnown);
    }
    if root != b"tzdist".as_slice() {
        return Ok(Asked::Unknown);
    }
    if name == b"capabilities".as_slice() {
        return Ok(Asked::Capabilities);
    }
    if name == b"leapseconds".as_slice() {
        return Ok(Asked::LeapSeconds);
    }
    if name == b"zones".as_slice() {
        return find_or_list(alloc, query);
    }
    Ok(Asked::Unknown)
}

/// Find if the query has a pattern, otherwise List.
fn find_or_list(alloc: Global, query: &[u8]) -> Result<Asked, NoMemory>
    ensures { IfOk result (λ asked. asked ≡ actions.zones query.now) }
{
    match parameter(alloc, query, b"pattern")? {
        Param::Absent => Ok(Asked::List(parameter(alloc, query, b"changedsince")?)),
        pattern => Ok(Asked::Find(pattern)),
    }
}

/// Get, with the parameters `start` and `end`.
fn ask_zone(
    alloc: Global,
    root: &Bytes,
    zones: &Bytes,
    tzid: &Bytes,
    query: &[u8],
) -> Result<Asked, NoMemory>
    ensures { IfOk result (λ asked. asked ≡ actions.zone root.now zones.now tzid.now query.now) }
{
    if !is_zone(root.as_slice(), zones.as_slice(), tzid.as_slice()) {
        return Ok(Asked::Unknown);
    }
    Ok(Asked::Get {
        tzid: Bytes::from_slice(alloc, tzid.as_slice())?,
        start: parameter(alloc, query, b"start")?,
        end: parameter(alloc, query, b"end")?,
    })
}

/// Expand, with the parameters `start` and `end`.
fn ask_observances(
    alloc: Global,
    root: &Bytes,
    zones: &Bytes,
    tzid: &Bytes,
    last: &Bytes,
    query: &[u8],
) -> Result<Asked, NoMemory>
    ensures { IfOk result
        (λ asked. asked ≡ actions.observances root.now zones.now tzid.now last.now query.now) }
{
    if !is_zone(root.as_slice(), zones.as_slice(), tzid.as_slice())
        || last.as_slice() != b"observances".as_slice()
    {
        return Ok(Asked::Unknown);
    }
    Ok(Asked::Expand {
        tzid: Bytes::from_slice(alloc, tzid.as_slice())?,
        start: parameter(alloc, query, b"start")?,
        end: parameter(alloc, query, b"end")?,
    })
}

/// Whether the segments are `tzdist`, `zones` and a name that is not empty.
fn is_zone(root: &[u8], zones: &[u8], tzid: &[u8]) -> bool
    ensures { result ≡ actions.is_zone root.now zones.now tzid.now }
{
    root == b"tzdist".as_slice() && zones == b"zones".as_slice() && !tzid.is_empty()
}
