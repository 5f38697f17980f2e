ghost use Rattle.std.specs.Prelude.{◌≡◌, ◌++◌, List, ℕ, IfOk, OnOk, true};
ghost use Rattle.catalogue.specs.HeldZones.{entry_data};
ghost use Rattle.catalogue.specs.Plain.{IsPlainEntry};
ghost use Rattle.json_forms.specs.Begun.{IsListBegun};
ghost use Rattle.json_forms.specs.ToldZone.{told_zone};
ghost use Rattle.json_forms.specs.declared.zone_list.ListZone.{ListZone};
ghost use Rattle.zone_meaning.specs.ZoneHistories.{ForEachZoneHistory, HasZoneHistory};
ghost use Rattle.http_answer.specs.Replies.{IsAnswerStatus};
ghost use Rattle.actions.specs.Documents.{with_document};
ghost use Rattle.catalogue.specs.Lookups.{place_of};
ghost use Rattle.actions.specs.Listing as spec;

use crate::choice::Choice;
use crate::documents::{document, refusal};
use catalogue::{Catalogue, Entry};
use http_answer::Answer;
use json_forms::{ListWriter, Problem, ZoneTexts};
use std::alloc::Global;
use target::Param;
use td_base::{Bytes, NoMemory};
use zone_meaning::Zone;

/// Answers the action `list` (RFC 7808, section 5.2).
#[tactic(auto, unfolding(crate::specs::Listing::list_answer))]
pub fn list(alloc: Global, catalogue: &Catalogue<Zone>, since: &Param) -> Result<Answer, NoMemory>
    requires { HasZoneHistory catalogue.now }
    ensures answer { ForEachZoneHistory catalogue.now (λ H.
        IfOk result (λ answer. answer ≡ spec.list_answer H since.now)) }
    ensures status { IfOk result (λ answer. IsAnswerStatus answer.status) }
{
    match since {
        Param::Absent => full_list(alloc, catalogue),
        Param::Once(token) => changes_since(alloc, catalogue, token),
        Param::Repeated => refusal(alloc, Problem::InvalidChangedsince),
    }
}

/// Answers with the changes since the place of this token. It refuses a token that the catalogue
/// does not resolve.
fn changes_since(
    alloc: Global,
    catalogue: &Catalogue<Zone>,
    token: &Bytes,
) -> Result<Answer, NoMemory>
    requires { HasZoneHistory catalogue.now }
    ensures answer { ForEachZoneHistory catalogue.now (λ H.
        IfOk result (λ answer. answer ≡ spec.changes_since H (place_of H token.now))) }
    ensures status { IfOk result (λ answer. IsAnswerStatus answer.status) }
{
    match catalogue.place_of(token.as_slice()) {
        Some(place) => Ok(document(change_list(alloc, catalogue, place)?)),
        None => refusal(alloc, Problem::InvalidChangedsince),
    }
}

/// The list of the zones that changed after a place, with the token of the newest place.
fn change_list(alloc: Global, catalogue: &Catalogue<Zone>, place: u32) -> Result<Bytes, NoMemory>
    requires { HasZoneHistory catalogue.now }
    ensures { ForEachZoneHistory catalogue.now (λ H.
        IfOk result (λ text. text ≡ spec.change_list H place)) }
{
    let changed = catalogue.changed_since(alloc, place)?;
    let token = catalogue.token(catalogue.count());
    let mut list = ListWriter::begin(Bytes::new(alloc), token.as_slice())?;
    for at in changed.as_slice() {
        list.zone(&texts_of(catalogue.entry(*at)))?;
    }
    list.end()
}

/// Every zone of the release.
struct Everything;

impl Choice for Everything {
    ghost use Rattle.std.specs.Prelude.{true};

    ghost shows = { λ _ _. true };

    fn takes(&self, _entry: &Entry<Zone>) -> bool {
        true
    }
}

/// The list of all zones.
fn full_list(alloc: Global, catalogue: &Catalogue<Zone>) -> Result<Answer, NoMemory>
    requires { HasZoneHistory catalogue.now }
    ensures { ForEachZoneHistory catalogue.now (λ H.
        IfOk result (λ answer. answer ≡ with_document (spec.list_body H (λ _. true)))) }
{
    Ok(document(list_body(alloc, catalogue, &Everything)?))
}

/// The list of the zones that a choice takes, with the token of the newest place.
pub fn list_body<C: Choice>(
    alloc: Global,
    catalogue: &Catalogue<Zone>,
    choice: &C,
) -> Result<Bytes, NoMemory>
    requires { HasZoneHistory catalogue.now }
    ensures { ForEachZoneHistory catalogue.now (λ H.
        IfOk result (λ text. text ≡ spec.list_body H (C.shows choice.now))) }
{
    let token = catalogue.token(catalogue.count());
    let mut list = ListWriter::begin(Bytes::new(alloc), token.as_slice())?;
    for place in 0..catalogue.len() {
        put_chosen(&mut list, catalogue.entry(place), choice)?;
    }
    list.end()
}

/// Writes a zone, if the choice takes it.
fn put_chosen<C: Choice>(
    list: &mut ListWriter,
    entry: &Entry<Zone>,
    choice: &C,
) -> Result<(), NoMemory>
    requires { IsPlainEntry (entry_data (λ z. z) entry.now) }
    ensures { (before token : List ℕ) (zones : List ListZone)
        → IsListBegun before token zones list.old
        → OnOk result (IsListBegun before token (zones
        ++ spec.list_zone_if (C.shows choice.now) (entry_data (λ z. z) entry.now)) list.new) }
{
    if choice.takes(entry) {
        list.zone(&texts_of(entry))?;
    }
    Ok(())
}

/// The texts of a zone's entry in a list.
fn texts_of(entry: &Entry<Zone>) -> ZoneTexts<'_>
    ensures { told_zone result ≡ spec.list_zone (entry_data (λ z. z) entry.now) }
{
    ZoneTexts {
        tzid: entry.content.tzid.as_slice(),
        etag: entry.tag.as_slice(),
        stamp: entry.stamp,
        publisher: entry.publisher.as_slice(),
        version: entry.version.as_slice(),
        aliases: entry.content.aliases.as_slice(),
    }
}
