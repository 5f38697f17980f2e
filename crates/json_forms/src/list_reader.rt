ghost use Rattle.std.specs.Prelude.{◌≡◌, ◌≢◌, codes, pos, IfOk, IfErr, None, Ok, Err, unwrap_or};
ghost use Rattle.serde_json.specs.Data.{no_items};
ghost use Rattle.serde_json.specs.View.{view, items_view};
ghost use Rattle.td_civil.specs.Reading.{moment_in as moment_meant};
ghost use Rattle.json_forms.specs.ListReading as reading;
ghost use Rattle.json_forms.specs.declared.list_fault.BadList.TheVariants as bad;

use crate::json_reader::read_value;
use crate::list_judging::list_fault;
use crate::members::{array_member, text_in};
use crate::{BadList, ListDoc, ListZone};
use serde_json::Value;
use std::alloc::Global;
use td_base::{Bytes, Items, NoMemory};
use td_civil::{Moment, moment_of};

/// The list of time zones that a body encodes (RFC 7808, section 6.2). Unknown members are ignored.
/// If a member is given twice, the last one counts.
pub fn read_list(alloc: Global, bytes: &[u8]) -> Result<ListDoc, BadList>
    ensures found { IfOk result (λ list. reading.list_read bytes.now ≡ Ok list) }
    ensures fault { IfErr result
        (λ e. e ≢ bad.NoMemory → reading.list_read bytes.now ≡ Err e) }
{
    match read_value(alloc, bytes)? {
        Some(value) => list_in(alloc, &value),
        None => Err(BadList::BadList(0)),
    }
}

/// The list that a value encodes. It is judged without memory, and only a valid list takes any.
#[tactic(auto, unfolding(crate::specs::ListReading::list_found))]
fn list_in(alloc: Global, value: &Value) -> Result<ListDoc, BadList>
    ensures found { IfOk result (λ list. reading.list_found (view value.now) ≡ Ok list) }
    ensures fault { IfErr result
        (λ e. e ≢ bad.NoMemory → reading.list_found (view value.now) ≡ Err e) }
    ensures memory { IfErr result
        (λ e. e ≡ bad.NoMemory → reading.list_fault (view value.now) ≡ None) }
{
    match list_fault(value) {
        Some(place) => Err(BadList::BadList(place)),
        None => Ok(list_of(alloc, value)?),
    }
}

/// The list with the members of a value that was judged to be a list.
#[tactic(auto, unfolding(crate::specs::ListReading::list_of))]
fn list_of(alloc: Global, value: &Value) -> Result<ListDoc, NoMemory>
    ensures { IfOk result (λ list. list ≡ reading.list_of (view value.now)) }
{
    Ok(ListDoc {
        token: Bytes::from_slice(alloc, text_in(value, "synctoken").as_bytes())?,
        zones: entries_of(alloc, value)?,
    })
}

fn entries_of(alloc: Global, value: &Value) -> Result<Items<ListZone>, NoMemory>
    ensures { IfOk result (λ zones. zones ≡ reading.zones_read (reading.entries (view value.now))) }
{
    match array_member(value, "timezones") {
        Some(entries) => zones_of(alloc, entries),
        None => Ok(Items::new(alloc)),
    }
}

fn zones_of(alloc: Global, entries: &[Value]) -> Result<Items<ListZone>, NoMemory>
    ensures { IfOk result (λ zones. zones ≡ reading.zones_read (items_view entries.now)) }
{
    let mut zones = Items::new(alloc);
    for entry in entries {
        zones.push(zone_in(alloc, entry)?)?;
    }
    Ok(zones)
}

#[tactic(auto, unfolding(crate::specs::ListReading::zone_in))]
fn zone_in(alloc: Global, entry: &Value) -> Result<ListZone, NoMemory>
    ensures { IfOk result (λ zone. zone ≡ reading.zone_in (view entry.now)) }
{
    Ok(ListZone {
        tzid: Bytes::from_slice(alloc, text_in(entry, "tzid").as_bytes())?,
        etag: Bytes::from_slice(alloc, text_in(entry, "etag").as_bytes())?,
        stamp: moment_in(text_in(entry, "last-modified")),
        publisher: Bytes::from_slice(alloc, text_in(entry, "publisher").as_bytes())?,
        version: Bytes::from_slice(alloc, text_in(entry, "version").as_bytes())?,
        aliases: aliases_of(alloc, entry)?,
    })
}

/// The moment that a text encodes, or 1970-01-01T00:00:00Z where it encodes none.
fn moment_in(text: &str) -> Moment
    ensures { result.seconds ≡ unwrap_or (moment_meant text.now) (pos 0) }
{
    match moment_of(text.as_bytes()) {
        Ok(moment) => moment,
        Err(_) => Moment { seconds: 0 },
    }
}

fn aliases_of(alloc: Global, entry: &Value) -> Result<Items<Bytes>, NoMemory>
    ensures { IfOk result (λ texts. texts
        ≡ reading.texts_of
        (unwrap_or (reading.array_member (codes "aliases") (view entry.now)) no_items)) }
{
    match array_member(entry, "aliases") {
        Some(aliases) => texts_of(alloc, aliases),
        None => Ok(Items::new(alloc)),
    }
}

fn texts_of(alloc: Global, values: &[Value]) -> Result<Items<Bytes>, NoMemory>
    ensures { IfOk result (λ texts. texts ≡ reading.texts_of (items_view values.now)) }
{
    let mut texts = Items::new(alloc);
    for value in values {
        let text = value.as_str().unwrap_or("");
        texts.push(Bytes::from_slice(alloc, text.as_bytes())?)?;
    }
    Ok(texts)
}
