//! The observances of ranges.
ghost use Rattle.std.specs.Prelude.{◌≡◌, IfOk};
ghost use Rattle.zone_meaning.specs.Observed.{IsRange};

use crate::zones::zone_at;
use case_lines::{Answer, CaseFault, Row, debug_text};
use std::alloc::Global;
use td_base::{Bytes, Items};
use td_civil::{HI, LO, Moment, Observance};
use zone_meaning::{Changes, Zone};

/// The range whose beginning and end are at a position and the next.
fn range_at(row: &Row, at: usize) -> Result<(Moment, Moment), CaseFault>
    ensures { IfOk result (λ range. IsRange range.0.seconds range.1.seconds) }
{
    let from = row.signed_number(at)?;
    let end = row.signed_number(at.saturating_add(1))?;
    if from < LO || end <= from || end > HI {
        return Err(CaseFault::Strange);
    }
    Ok((Moment { seconds: from }, Moment { seconds: end }))
}

/// `observances HEX FROM END`: onset, offset before it, offset, daylight saving time and name of
/// each observance, each followed by a bar. The list and the iteration must agree.
pub fn observances(alloc: Global, row: &Row) -> Answer {
    let range = range_at(row, 1)?;
    let zone = zone_at(alloc, row, 0)?;
    observances_of(alloc, &zone, range)
}

/// The observances of a zone in a range, if the iteration gives the same as the list.
fn observances_of(alloc: Global, zone: &Zone, range: (Moment, Moment)) -> Answer
    requires { IsRange range.0.seconds range.1.seconds }
{
    let list = list(alloc, zone, range)?;
    if are_handed_out(zone, range, list.as_slice()) {
        text(alloc, list.as_slice())
    } else {
        other(alloc)
    }
}

fn list(alloc: Global, zone: &Zone, range: (Moment, Moment)) -> Result<Items<Observance>, CaseFault>
    requires { IsRange range.0.seconds range.1.seconds }
{
    Ok(zone_meaning::observances(alloc, zone, range.0, range.1)?)
}

/// The answer when the two differ.
fn other(alloc: Global) -> Answer {
    Ok(Vec::from_slice(alloc, b"other")?)
}

/// Whether the iteration gives exactly these, one at a time.
fn are_handed_out(zone: &Zone, range: (Moment, Moment), list: &[Observance]) -> bool
    requires { IsRange range.0.seconds range.1.seconds }
{
    let mut rest = Changes::new(zone, range.0, range.1);
    for listed in list {
        if !is_next(&mut rest, listed) {
            return false;
        }
    }
    rest.next().is_none()
}

fn is_next(rest: &mut Changes, listed: &Observance) -> bool {
    match rest.next() {
        Some(next) => next == *listed,
        None => false,
    }
}

fn text(alloc: Global, list: &[Observance]) -> Answer {
    let mut out = Bytes::new(alloc);
    for observance in list {
        append_observance(alloc, &mut out, observance)?;
    }
    Ok(out.into_vec())
}

fn append_observance(alloc: Global, out: &mut Bytes, o: &Observance) -> Result<(), CaseFault> {
    let (onset, from, to, dst) = (o.onset.seconds, o.from, o.to, o.dst);
    out.append(format!(in alloc; "{onset} {from} {to} {dst} ")?.as_bytes())?;
    out.append(o.name.as_slice())?;
    out.append(b"|")?;
    Ok(())
}

/// `same-observances HEX HEX FROM END`: how many observances the first zone has, if the second zone
/// has the same.
pub fn same(alloc: Global, row: &Row) -> Answer {
    let one = all(alloc, row, 0)?;
    let two = all(alloc, row, 1)?;
    same_number(alloc, one.as_slice(), two.as_slice())
}

fn same_number(alloc: Global, one: &[Observance], two: &[Observance]) -> Answer {
    if one == two {
        debug_text(alloc, &one.len())
    } else {
        other(alloc)
    }
}

fn all(alloc: Global, row: &Row, at: usize) -> Result<Items<Observance>, CaseFault> {
    let range = range_at(row, 2)?;
    let zone = zone_at(alloc, row, at)?;
    list(alloc, &zone, range)
}
