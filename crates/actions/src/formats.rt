//! How each format of a zone's data is served.
ghost use Rattle.std.specs.Prelude.{◌≡◌, IfOk, IfSome, option_copied};
ghost use Rattle.catalogue.specs.Releases.{content_as_is};
ghost use Rattle.zone_meaning.specs.Sound.{IsSoundFile};
ghost use Rattle.actions.specs.Bounds.{AreBounds};
ghost use Rattle.actions.specs.Formats as formats;
ghost use Rattle.recurrence.specs.Spellable.{IsSafe};

use crate::bounds::{BoundRule, Bounds, range_between};
use catalogue::Content;
use http_answer::Kind;
use negotiate::Format;
use std::alloc::Global;
use td_base::{Bytes, NoMemory};
use vtimezone::{parts, write};
use zone_meaning::{Zone, file};

/// How a format is served: which bounds it allows, its media type, and the mark of its tags.
#[derive(Clone, Copy)]
pub struct FormatForm {
    pub bounds: BoundRule,
    pub kind: Kind,
    /// The part of its entity tags that names the format.
    pub mark: &'static [u8],
}

/// Returns how a format is served.
pub fn form_of(format: Format) -> FormatForm
    ensures bounds { result.bounds ≡ (formats.format_data format).bounds }
    ensures kind { result.kind ≡ (formats.format_data format).kind }
    ensures mark { result.mark.now ≡ (formats.format_data format).mark }
{
    match format {
        Format::Calendar => FormatForm {
            bounds: BoundRule::Optional,
            kind: Kind::Calendar,
            mark: b"c2",
        },
        Format::Tzif => FormatForm {
            bounds: BoundRule::Refused,
            kind: Kind::Tzif,
            mark: b"t",
        },
        Format::CalendarJson => FormatForm {
            bounds: BoundRule::Optional,
            kind: Kind::CalendarJson,
            mark: b"j",
        },
    }
}

/// The data of a zone in a format, between two bounds, under the name that was requested.
pub fn text_in(
    alloc: Global,
    format: Format,
    name: &Bytes,
    content: &Content<Zone>,
    bounds: Bounds,
) -> Result<Bytes, NoMemory>
    requires sound { IsSoundFile content.now.zone }
    requires names { formats.AreTexts name.now content.now.tzid }
    requires bounds { AreBounds bounds }
    ensures { IfOk result (λ text. text ≡ (formats.format_data format).text name.now
        (content_as_is (λ z. z) content.now) bounds) }
{
    match format {
        Format::Calendar => calendar_text(alloc, name, content, bounds),
        Format::Tzif => file_text(alloc, content),
        Format::CalendarJson => json_text(alloc, name, content, bounds),
    }
}

/// The calendar of a zone between two bounds.
#[tactic(auto, unfolding(crate::specs::Formats::calendar_text))]
fn calendar_text(
    alloc: Global,
    name: &Bytes,
    content: &Content<Zone>,
    bounds: Bounds,
) -> Result<Bytes, NoMemory>
    requires sound { IsSoundFile content.now.zone }
    requires names { formats.AreTexts name.now content.now.tzid }
    requires bounds { AreBounds bounds }
    ensures { IfOk result (λ text. text ≡ formats.calendar_text name.now
        (content_as_is (λ z. z) content.now) bounds) }
{
    let range = range_between(bounds);
    let parts = parts(alloc, &content.zone, range)?;
    let mut text = Bytes::new(alloc);
    write(
        &mut text,
        name.as_slice(),
        alias_of(name, &content.tzid),
        parts.as_slice(),
        range.until,
    )?;
    Ok(text)
}

/// The calendar of a zone between two bounds, as JSON.
#[tactic(auto, unfolding(crate::specs::Formats::json_text))]
fn json_text(
    alloc: Global,
    name: &Bytes,
    content: &Content<Zone>,
    bounds: Bounds,
) -> Result<Bytes, NoMemory>
    requires sound { IsSoundFile content.now.zone }
    requires names { formats.AreTexts name.now content.now.tzid }
    requires bounds { AreBounds bounds }
    ensures { IfOk result (λ text. text ≡ formats.json_text name.now
        (content_as_is (λ z. z) content.now) bounds) }
{
    let range = range_between(bounds);
    let parts = parts(alloc, &content.zone, range)?;
    let mut text = Bytes::new(alloc);
    jcal::write(
        alloc,
        &mut text,
        name.as_slice(),
        alias_of(name, &content.tzid),
        parts.as_slice(),
        range.until,
    )?;
    Ok(text)
}

/// The identifier of a zone, if the name is one of its aliases.
fn alias_of<'a>(name: &Bytes, tzid: &'a Bytes) -> Option<&'a [u8]>
    requires { IsSafe tzid.now }
    ensures alias_of { option_copied result ≡ formats.alias_of name.now tzid.now }
    ensures safe { IfSome (option_copied result) IsSafe }
{
    if name.as_slice() == tzid.as_slice() {
        return None;
    }
    Some(tzid.as_slice())
}

/// A copy of the zone's file.
fn file_text(alloc: Global, content: &Content<Zone>) -> Result<Bytes, NoMemory>
    ensures { IfOk result (λ text. text ≡ (content_as_is (λ z. z) content.now).file) }
{
    Bytes::from_slice(alloc, file(&content.zone))
}
