//! Documents that are written. A row names the values, which are defined here.
ghost use Rattle.std.specs.Prelude.{◌≤◌, IfOk, OnOk, length};
ghost use Rattle.std.specs.List.{AllByRecursion};
ghost use Rattle.td_base.specs.Names.{IsPlain};
ghost use Rattle.td_civil.specs.Bounds.{IsWithinBounds};
ghost use Rattle.json_forms.specs.PlainTexts.{IsPlainObservance, IsPlainZone};

use case_lines::{Answer, CaseFault, Row};
use catalogue::{LeapStep, Leaps};
use json_forms::{
    ExpansionWriter, ListWriter, ListZone, ObservanceText, expand_text, leap_text, list_text,
};
use serde_json::Value;
use std::alloc::Global;
use td_base::{Bytes, Items, NoMemory, ShortText};
use td_civil::{Moment, Observance};

/// Whether a document is written at once, or item by item.
#[derive(Clone, Copy)]
enum Way {
    Whole,
    ItemByItem,
}

fn way_of(word: &str) -> Result<Way, CaseFault> {
    match word {
        "whole" => Ok(Way::Whole),
        "item-by-item" => Ok(Way::ItemByItem),
        _ => Err(CaseFault::Strange),
    }
}

/// `list NAME WAY`: the list, appended to other bytes.
pub fn list(alloc: Global, row: &Row) -> Answer {
    let way = way_of(row.text(1)?)?;
    list_of(alloc, row.text(0)?, way)
}

fn list_of(alloc: Global, name: &str, way: Way) -> Answer {
    match name {
        "empty" => list_answer(alloc, way, b"t", &[]),
        "one" => one_zone(alloc, way),
        "two" => two_zones(alloc, way),
        "escaped" => list_with_escapes(alloc, way),
        _ => Err(CaseFault::Strange),
    }
}

/// A list, appended to other bytes.
fn list_answer(alloc: Global, way: Way, token: &[u8], zones: &[ListZone]) -> Answer
    requires token { IsPlain token.now }
    requires zones { AllByRecursion IsPlainZone zones.now }
{
    match way {
        Way::Whole => whole(alloc, token, zones),
        Way::ItemByItem => item_by_item(alloc, token, zones),
    }
}

fn whole(alloc: Global, token: &[u8], zones: &[ListZone]) -> Answer
    requires token { IsPlain token.now }
    requires zones { AllByRecursion IsPlainZone zones.now }
{
    let mut out = Bytes::from_slice(alloc, b"before ")?;
    list_text(alloc, &mut out, token, zones)?;
    Ok(out.into_vec())
}

fn item_by_item(alloc: Global, token: &[u8], zones: &[ListZone]) -> Answer
    requires token { IsPlain token.now }
    requires zones { AllByRecursion IsPlainZone zones.now }
{
    let mut list = ListWriter::begin(Bytes::from_slice(alloc, b"before ")?, token)?;
    for zone in zones {
        list.zone(&zone.texts())?;
    }
    Ok(list.end()?.into_vec())
}

/// A zone of the publisher `Test`, without aliases. All zones have the same tag.
fn zone(alloc: Global, tzid: &[u8], seconds: i64, version: &[u8]) -> Result<ListZone, NoMemory>
    requires tzid { IsPlain tzid.now }
    requires seconds { IsWithinBounds seconds }
    requires version { IsPlain version.now }
    ensures { IfOk result IsPlainZone }
{
    let tzid = Bytes::from_slice(alloc, tzid)?;
    let etag = Bytes::from_slice(alloc, b"0123456789abcdef0123456789abcdef")?;
    let publisher = Bytes::from_slice(alloc, b"Test")?;
    let version = Bytes::from_slice(alloc, version)?;
    Ok(ListZone {
        tzid,
        etag,
        stamp: Moment { seconds },
        publisher,
        version,
        aliases: Items::new(alloc),
    })
}

/// Adds an alias to a zone.
fn add_alias(alloc: Global, zone: &mut ListZone, alias: &[u8]) -> Result<(), NoMemory>
    requires alias { IsPlain alias.now }
    requires zone { IsPlainZone zone.old }
    ensures { OnOk result (IsPlainZone zone.new) }
{
    let alias = Bytes::from_slice(alloc, alias)?;
    zone.aliases.push(alias)
}

fn one_zone(alloc: Global, way: Way) -> Answer {
    let utc = zone(alloc, b"Etc/UTC", 1_737_331_200, b"2025a")?;
    list_answer(alloc, way, b"1-89abcdef01234567", &[utc])
}

fn two_zones(alloc: Global, way: Way) -> Answer {
    let york = york(alloc)?;
    let utc = zone(alloc, b"Etc/UTC", 1_742_601_600, b"2025b")?;
    list_answer(alloc, way, b"1-89abcdef01234567", &[york, utc])
}

fn york(alloc: Global) -> Result<ListZone, NoMemory>
    ensures { IfOk result IsPlainZone }
{
    let mut york = zone(alloc, b"America/New_York", 1_742_601_600, b"2025b")?;
    add_alias(alloc, &mut york, b"US/Eastern")?;
    Ok(york)
}

/// A list with quotation marks and backslashes, which are escaped (RFC 8259, section 7).
fn list_with_escapes(alloc: Global, way: Way) -> Answer {
    let quoted = zone_with_quotes(alloc)?;
    list_answer(alloc, way, br#"\ ""#, &[quoted])
}

fn zone_with_quotes(alloc: Global) -> Result<ListZone, NoMemory>
    ensures { IfOk result IsPlainZone }
{
    let mut quoted = zone(alloc, br#""\"#, 1_742_601_600, b"")?;
    add_alias(alloc, &mut quoted, b"A")?;
    add_alias(alloc, &mut quoted, br#"b \ "/~"#)?;
    Ok(quoted)
}

/// `expansion NAME`: the observances of the year 2025.
pub fn expansion(alloc: Global, row: &Row) -> Answer {
    match row.text(0)? {
        "year" => year(alloc),
        "none" => expansion_answer(alloc, b"", &[]),
        "east" => east(alloc),
        _ => Err(CaseFault::Strange),
    }
}

fn expansion_answer(alloc: Global, tzid: &[u8], observances: &[Observance]) -> Answer
    requires tzid { IsPlain tzid.now }
    requires observances { AllByRecursion IsPlainObservance observances.now }
{
    let mut out = Bytes::new(alloc);
    let from = Moment {
        seconds: 1_735_689_600,
    };
    let until = Moment {
        seconds: 1_767_225_600,
    };
    expand_text(alloc, &mut out, tzid, from, until, observances)?;
    Ok(out.into_vec())
}

fn observance(seconds: i64, from: i32, to: i32, name: &[u8]) -> Observance
    requires seconds { IsWithinBounds seconds }
    requires name { IsPlain name.now }
    requires room { length name.now ≤ 32 }
    ensures { IsPlainObservance result }
{
    let mut text = ShortText::new();
    text.append(name);
    Observance {
        onset: Moment { seconds },
        from,
        to,
        dst: from < to,
        name: text,
    }
}

/// New York, at once.
fn year(alloc: Global) -> Answer {
    let year = [
        observance(1_735_689_600, -18_000, -18_000, b"EST"),
        observance(1_741_503_600, -18_000, -14_400, b"EDT"),
        observance(1_762_063_200, -14_400, -18_000, b"EST"),
    ];
    expansion_answer(alloc, b"America/New_York", &year)
}

/// A zone east of UTC, item by item.
fn east(alloc: Global) -> Answer {
    let from = Moment {
        seconds: 1_735_689_600,
    };
    let until = Moment {
        seconds: 1_767_225_600,
    };
    let mut east = ExpansionWriter::begin(Bytes::new(alloc), until)?;
    let first = ObservanceText::new(observance(1_735_689_600, 0, 10_800, b"+03"));
    east.write(&first)?;
    Ok(east.end(b"A/B", from)?.into_vec())
}

/// `leap-table`: the table of 1973, which is known to hold up to 28 December 2025.
pub fn leap_table(alloc: Global) -> Answer {
    let steps = vec![in alloc;
        LeapStep {
            day: 730,
            offset: 10
        },
        LeapStep {
            day: 912,
            offset: 11
        },
        LeapStep {
            day: 1_096,
            offset: 12
        },
    ]?;
    let leaps = Leaps {
        file: Bytes::new(alloc),
        expires: Bytes::from_slice(alloc, b"2025-12-28")?,
        steps: Items::from(steps),
    };
    let mut out = Bytes::new(alloc);
    leap_text(alloc, &mut out, &leaps, b"Test", b"2025a")?;
    Ok(out.into_vec())
}

/// `printed TEXT`: the JSON value of the text, as `serde_json` prints it.
pub fn value_text(alloc: Global, row: &Row) -> Answer {
    match Value::from_slice(alloc, row.word(0)?) {
        Ok(value) => case_lines::display_text(alloc, &value),
        Err(_) => Err(CaseFault::Strange),
    }
}
