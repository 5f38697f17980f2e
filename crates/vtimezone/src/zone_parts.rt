//! The parts of a zone for a range.
ghost use Rattle.std.specs.Prelude.{◌≡◌, ◌<◌, ◌<ℤ◌, length, pos, None, All, IfOk, OnOk};
ghost use Rattle.std.specs.Prelude.{IsTrue};
ghost use Rattle.jiff_core.specs.Calendar.{IsBetween};
ghost use Rattle.td_civil.specs.Bounds.{HasMeaning};
ghost use Rattle.posix_footer.specs.Carried.{IsCarriedIfAny};
ghost use Rattle.tzif_reader.specs.Cut as cut;
ghost use Rattle.zone_meaning.specs.Faults.{zone_fault};
ghost use Rattle.zone_meaning.specs.Names.{has_printable_names};
ghost use Rattle.zone_meaning.specs.State.{footer_meant};
ghost use Rattle.recurrence.specs.Spellable.{IsSpellable};
ghost use Rattle.vtimezone.specs.PartsOf as spec;
ghost use Rattle.vtimezone.specs.Ranges as ranges;
ghost use Rattle.vtimezone.specs.ZoneParts as zone_spec;

use crate::change_parts::change_parts;
use crate::rule_parts::{comes_before, push_rules};
use crate::{Part, Range};
use std::alloc::Global;
use td_base::{Items, NoMemory};
use td_civil::{Moment, new_year_day, year_of};
use tzif_reader::ZoneLists;
use zone_meaning::{Zone, footer, lists};

/// The parts of a zone for a range (RFC 5545, section 3.6.5), in rising order of their first
/// onsets. The first has its onset at the beginning of the range. Parts with rules come after all
/// others. Changes that differ only in their moments share one part. Memory is taken for the list
/// and for the dates of its parts.
pub fn parts(alloc: Global, zone: &Zone, range: Range) -> Result<Items<Part>, NoMemory>
    requires from { HasMeaning range.from.seconds }
    requires until { ranges.IsEndOf range.from.seconds (ranges.end_in range) }
    requires carried { IsCarriedIfAny (footer_meant (cut.lists_of zone.now).footer) }
    ensures exact { IfOk result (λ parts. parts ≡ zone_spec.range_parts zone.now range) }
    ensures means { IfOk result (zone_spec.MeansZone zone.now range) }
    ensures some { IfOk result (λ parts. 0 < length parts) }
    ensures spellable { IsTrue (has_printable_names zone.now)
        → IfOk result (λ parts. All IsSpellable parts) }
{
    let parts = listed(alloc, zone, range)?;
    Ok(parts)
}

/// The parts of the changes, and after them those of the footer's rules.
#[tactic(auto, unfolding(crate::specs::ZoneParts::range_parts, crate::specs::PartsOf::parts_from))]
fn listed(alloc: Global, zone: &Zone, range: Range) -> Result<Items<Part>, NoMemory>
    requires from { HasMeaning range.from.seconds }
    requires until { ranges.IsEndOf range.from.seconds (ranges.end_in range) }
    requires carried { IsCarriedIfAny (footer_meant (cut.lists_of zone.now).footer) }
    ensures exact { IfOk result (λ parts. parts ≡ zone_spec.range_parts zone.now range) }
    ensures no_fault { OnOk result (zone_fault zone.now ≡ None) }
{
    let year = rule_year(zone, range.from);
    let mut parts = change_parts(alloc, zone, range.from, changes_end(year, range.until))?;
    push_rules(alloc, &mut parts, footer(zone), year, range.until)?;
    Ok(parts)
}

/// The first year of the rules, in UTC. It is the one after the year of the last transition, or of
/// the beginning of the range if that is later.
fn rule_year(zone: &Zone, from: Moment) -> i32
    requires { HasMeaning from.seconds }
    ensures year { result ≡ zone_spec.rule_year zone.now from.seconds }
    ensures bound { IsBetween (pos 1801) (pos 9999) result }
    ensures after { from.seconds <ℤ spec.year_begin result }
{
    year_of(last_moment(zone, from)) + 1
}

/// The last transition of a zone, or the beginning of the range if that is later.
fn last_moment(zone: &Zone, from: Moment) -> Moment
    requires { HasMeaning from.seconds }
    ensures moment { result.seconds
        ≡ zone_spec.latest from.seconds (cut.lists_of zone.now).moments }
    ensures meaning { HasMeaning result.seconds }
    ensures no_fault { zone_fault zone.now ≡ None }
{
    latest(&lists(zone), from)
}

/// The last transition, or the other moment if that is later or there is none.
fn latest(lists: &ZoneLists, from: Moment) -> Moment
    ensures { result.seconds ≡ zone_spec.latest from.seconds lists.now.moments }
{
    let count = lists.len();
    if count == 0 {
        return from;
    }
    let last = lists.moment(count - 1);
    if from.seconds < last.seconds {
        last
    } else {
        from
    }
}

/// The end of the parts of the changes: the beginning of a year, or the end of the range if that is
/// earlier.
fn changes_end(year: i32, until: Option<Moment>) -> Moment
    requires { IsBetween (pos 1801) (pos 9999) year }
    ensures { result.seconds
        ≡ spec.changes_end (spec.year_begin year) (ranges.seconds_if_any until) }
{
    let turn = begin_of(year);
    match until {
        None => turn,
        Some(end) => { if comes_before(end, turn) { end } else { turn } }
    }
}

/// The moment at which a year begins in UTC.
fn begin_of(year: i32) -> Moment
    requires { IsBetween (pos 1801) (pos 9999) year }
    ensures { result.seconds ≡ spec.year_begin year }
{
    Moment {
        seconds: new_year_day(year as i16) * 86_400,
    }
}
