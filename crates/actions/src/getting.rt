ghost use Rattle.std.specs.Prelude.{◌≡◌, Some, Ok, IfOk, option_copied};
ghost use Rattle.catalogue.specs.HeldZones.{entry_data};
ghost use Rattle.http_answer.specs.Replies.{IsAnswerStatus};
ghost use Rattle.zone_meaning.specs.Sound.{IsSoundFile};
ghost use Rattle.zone_meaning.specs.ZoneHistories.{ForEachZoneHistory, HasZoneHistory};
ghost use Rattle.actions.specs.Bounds.{AreBounds};
ghost use Rattle.actions.specs.Formats.{AreTexts, format_data};
ghost use Rattle.actions.specs.Getting as getting;

use crate::bounds::{Bounds, bounds_in};
use crate::documents::{not_modified, refusal, zone_data};
use crate::formats::{form_of, text_in};
use crate::tags::data_tag;
use catalogue::{Catalogue, Entry};
use http_answer::Answer;
use http_request::Head;
use json_forms::Problem;
use negotiate::{Format, choose, none_match};
use std::alloc::Global;
use target::Param;
use td_base::{Bytes, NoMemory};
use zone_meaning::Zone;

/// Answers the action `get` (RFC 7808, section 5.3).
pub fn get(
    alloc: Global,
    catalogue: &Catalogue<Zone>,
    head: &Head,
    name: &Bytes,
    start: &Param,
    end: &Param,
) -> Result<Answer, NoMemory>
    requires { HasZoneHistory catalogue.now }
    ensures answer { ForEachZoneHistory catalogue.now (λ H. IfOk result (λ answer. answer
        ≡ getting.get_answer H head.now.accept head.now.none_match name.now start.now end.now)) }
    ensures status { IfOk result (λ answer. IsAnswerStatus answer.status) }
{
    match catalogue.find_name(name.as_slice()) {
        Some(place) => get_zone(alloc, catalogue.entry(place), head, name, start, end),
        None => refusal(alloc, Problem::TzidNotFound),
    }
}

/// Answers for a zone that was found, in the format that the request accepts.
fn get_zone(
    alloc: Global,
    entry: &Entry<Zone>,
    head: &Head,
    name: &Bytes,
    start: &Param,
    end: &Param,
) -> Result<Answer, NoMemory>
    requires sound { IsSoundFile entry.now.content.zone }
    requires names { AreTexts name.now entry.now.content.tzid }
    ensures answer { IfOk result (λ answer. answer
        ≡ getting.zone_answer name.now (Some (entry_data (λ z. z) entry.now)) head.now.accept
        head.now.none_match start.now end.now) }
    ensures status { IfOk result (λ answer. IsAnswerStatus answer.status) }
{
    match choose(bytes_of(&head.accept)) {
        Some(format) => get_as(alloc, format, entry, &head.none_match, name, start, end),
        None => refusal(alloc, Problem::InvalidFormat),
    }
}

/// Answers in a format, between the bounds that the request gives.
fn get_as(
    alloc: Global,
    format: Format,
    entry: &Entry<Zone>,
    held: &Option<Bytes>,
    name: &Bytes,
    start: &Param,
    end: &Param,
) -> Result<Answer, NoMemory>
    requires sound { IsSoundFile entry.now.content.zone }
    requires names { AreTexts name.now entry.now.content.tzid }
    ensures answer { IfOk result (λ answer. answer
        ≡ getting.format_answer (Some format) name.now (entry_data (λ z. z) entry.now) held.now
        start.now end.now) }
    ensures status { IfOk result (λ answer. IsAnswerStatus answer.status) }
{
    match bounds_in(form_of(format).bounds, start, end) {
        Ok(bounds) => get_between(alloc, format, entry, held, name, bounds),
        Err(problem) => refusal(alloc, problem),
    }
}

/// Answers with the data of a zone between two bounds, unless the client already has it.
fn get_between(
    alloc: Global,
    format: Format,
    entry: &Entry<Zone>,
    held: &Option<Bytes>,
    name: &Bytes,
    bounds: Bounds,
) -> Result<Answer, NoMemory>
    requires sound { IsSoundFile entry.now.content.zone }
    requires names { AreTexts name.now entry.now.content.tzid }
    requires bounds { AreBounds bounds }
    ensures answer { IfOk result (λ answer. answer
        ≡ getting.form_answer (format_data format) name.now (entry_data (λ z. z) entry.now) held.now
        (Ok bounds)) }
    ensures status { IfOk result (λ answer. IsAnswerStatus answer.status) }
{
    let form = form_of(format);
    let tag = data_tag(alloc, &entry.tag, form.mark, bounds)?;
    if is_held(held, &tag) {
        return Ok(not_modified(alloc, tag));
    }
    let body = text_in(alloc, format, name, &entry.content, bounds)?;
    Ok(zone_data(form.kind, tag, body))
}

/// The bytes of a field, if there is one.
fn bytes_of(field: &Option<Bytes>) -> Option<&[u8]>
    ensures { option_copied result ≡ field.now }
{
    field.as_ref().map(|bytes| bytes.as_slice())
}

/// Whether there is an If-None-Match field, and it has the tag.
fn is_held(held: &Option<Bytes>, tag: &Bytes) -> bool
    ensures { result ≡ getting.is_held held.now tag.now }
{
    match held {
        Some(bytes) => none_match(bytes.as_slice(), tag.as_slice()),
        None => false,
    }
}
