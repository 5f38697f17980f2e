//! Calendars of zones.
ghost use Rattle.std.specs.Prelude.{◌≡◌, ◌<ℤ◌, ◌≤ℤ◌, ◌<◌, IfOk, IfSome, IsTrue, All, length, pos};
ghost use Rattle.std.specs.Prelude.{option_copied};
ghost use Rattle.std.specs.List.{list_all};
ghost use Rattle.posix_footer.specs.Carried.{IsCarriedIfAny};
ghost use Rattle.td_civil.specs.Bounds.{HasMeaning};
ghost use Rattle.td_civil.specs.declared.moment_type.TheConstants.{HI};
ghost use Rattle.tzif_reader.specs.Cut.{lists_of};
ghost use Rattle.vtimezone.specs.Ranges.{IsEndOf, end_in};
ghost use Rattle.recurrence.specs.Spellable.{is_safe, IsSafe};
ghost use Rattle.zone_meaning.specs.Names.{has_printable_names};
ghost use Rattle.zone_meaning.specs.State.{footer_meant};

use crate::zones::{moment_at, zone_at};
use case_lines::{Answer, CaseFault, Row};
use recurrence::carry;
use std::alloc::Global;
use td_base::Bytes;
use td_civil::{HI, Moment};
use vtimezone::{Range, parts, write};
use zone_meaning::{Zone, footer, has_printable_names};

/// The format of a calendar.
#[derive(Clone, Copy)]
pub enum CalendarForm {
    /// In lines (RFC 5545).
    Lines,
    /// As JSON (RFC 7265).
    Json,
}

/// `calendar HEX FROM END TZID ALIAS-OF`: the text of the calendar. A `-` means no end, or no zone
/// whose alias the identifier is. `json-calendar` with the same words gives it as JSON.
pub fn calendar(alloc: Global, row: &Row, written: CalendarForm) -> Answer {
    let range = range_in(row)?;
    let tzid = text_word(row.word(3)?)?;
    let alias_of = alias_word(row.word(4)?)?;
    let zone = fit_zone(alloc, row)?;
    text(alloc, &zone, range, tzid, alias_of, written)
}

/// The zone of the first word, if a calendar of it can be written.
fn fit_zone(alloc: Global, row: &Row) -> Result<Zone, CaseFault>
    ensures carried { IfOk result (λ zone. IsCarriedIfAny (footer_meant (lists_of zone).footer)) }
    ensures names { IfOk result (λ zone. IsTrue (has_printable_names zone)) }
{
    let zone = zone_at(alloc, row, 0)?;
    if is_carried(&zone) && has_printable_names(&zone) {
        Ok(zone)
    } else {
        Err(CaseFault::Strange)
    }
}

/// The word, if each of its bytes may stand unescaped in a calendar's text.
fn text_word(word: &[u8]) -> Result<&[u8], CaseFault>
    ensures { IfOk result (λ text. IsSafe text.now) }
{
    if is_text(word) {
        Ok(word)
    } else {
        Err(CaseFault::Strange)
    }
}

/// Like `text_word`, with a dash for no word.
fn alias_word(word: &[u8]) -> Result<Option<&[u8]>, CaseFault>
    ensures { IfOk result (λ alias. IfSome (option_copied alias) IsSafe) }
{
    if word == b"-".as_slice() {
        return Ok(None);
    }
    let text = text_word(word)?;
    Ok(Some(text))
}

/// The range of a row, which must be within the supported range.
fn range_in(row: &Row) -> Result<Range, CaseFault>
    ensures from { IfOk result (λ range. HasMeaning range.from.seconds) }
    ensures until { IfOk result (λ range. IsEndOf range.from.seconds (end_in range)) }
{
    let from = moment_at(row, 1)?;
    let until = end_after(row, from)?;
    Ok(Range { from, until })
}

fn end_after(row: &Row, from: Moment) -> Result<Option<Moment>, CaseFault>
    ensures { IfOk result (λ end.
        IfSome end (λ m. from.seconds <ℤ m.seconds × (m.seconds ≤ℤ HI))) }
{
    if row.word(2)? == b"-".as_slice() {
        return Ok(None);
    }
    let seconds = row.signed_number(2)?;
    if seconds <= from.seconds || seconds > HI {
        return Err(CaseFault::Strange);
    }
    Ok(Some(Moment { seconds }))
}

/// Whether the footer of a zone can be written as yearly rules.
fn is_carried(zone: &Zone) -> bool
    ensures { IsTrue result → IsCarriedIfAny (footer_meant (lists_of zone.now).footer) }
{
    match footer(zone) {
        None => true,
        Some(footer) => carry(footer).is_ok(),
    }
}

/// Whether each byte may stand unescaped in a calendar's text.
fn is_text(text: &[u8]) -> bool
    ensures { result ≡ list_all is_safe text.now }
{
    text.iter().all(|byte| is_text_byte(*byte))
}

fn is_text_byte(byte: u8) -> bool
    ensures { result ≡ is_safe byte }
{
    (byte >= 32 && byte <= 126 || byte == b'\t') && byte != b',' && byte != b';' && byte != b'\\'
}

/// The text of the calendar of a zone for a range.
fn text(
    alloc: Global,
    zone: &Zone,
    range: Range,
    tzid: &[u8],
    alias_of: Option<&[u8]>,
    written: CalendarForm,
) -> Answer
    requires from { HasMeaning range.from.seconds }
    requires until { IsEndOf range.from.seconds (end_in range) }
    requires carried { IsCarriedIfAny (footer_meant (lists_of zone.now).footer) }
    requires names { IsTrue (has_printable_names zone.now) }
    requires tzid { IsSafe tzid.now }
    requires alias_of { IfSome (option_copied alias_of) IsSafe }
{
    let parts = parts(alloc, zone, range)?;
    let mut text = Bytes::new(alloc);
    match written {
        CalendarForm::Lines => write(&mut text, tzid, alias_of, parts.as_slice(), range.until)?,
        CalendarForm::Json => {
            jcal::write(
                alloc,
                &mut text,
                tzid,
                alias_of,
                parts.as_slice(),
                range.until,
            )?
        }
    }
    Ok(text.into_vec())
}
