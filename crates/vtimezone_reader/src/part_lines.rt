//! The lines of a part (RFC 5545, section 3.6.5).
ghost use Rattle.std.specs.Prelude.{◌≡◌, ◌≢◌, ◌++◌, Ok, Err, IfOk, IfErr, OnOk};
ghost use Rattle.std.specs.List.{list_all};
ghost use Rattle.std.specs.Option.{option_map, option_and_then};
ghost use Rattle.std.specs.Int.{int_rem_euclid};
ghost use Rattle.std.specs.Prelude.{◌+ℤ◌, pos, unsigned_abs};
ghost use Rattle.td_civil.specs.Bounds.{HasMeaning};
ghost use Rattle.vtimezone.specs.Cutting.{cut_at};
ghost use Rattle.vtimezone_reader.specs.PartLines as lines;
ghost use Rattle.vtimezone_reader.specs.TimeTexts as times;

use crate::calendar_fault::LineFault;
use crate::content_lines::is_word;
use crate::pieces::cut;
use crate::rule_words::{Recur, recur_in};
use crate::time_texts::{moment_by, offset_in};
use recurrence::{Moments, Part, Rule};
use std::alloc::Global;
use td_base::{Bytes, Items, NoMemory};
use td_civil::{Moment, Name};

/// What the lines of a part say, as far as they have been read.
#[derive(Drop)]
pub struct OpenPart {
    pub dst: bool,
    /// The text of the first local time.
    pub start: Option<Bytes>,
    pub from: Option<i32>,
    pub to: Option<i32>,
    pub name: Option<Name>,
    pub recur: Option<Recur>,
    /// The texts of the further local times.
    pub dates: Items<Bytes>,
}

impl OpenPart {
    /// A part of which no line has been read.
    pub(crate) fn begin(alloc: Global, dst: bool) -> OpenPart
        ensures exact { result ≡ lines.begun_part dst }
    {
        OpenPart {
            dst,
            start: None,
            from: None,
            to: None,
            name: None,
            recur: None,
            dates: Items::new(alloc),
        }
    }
}

/// The value, if none was read before. A repeated value is a `Count` fault, and a malformed one the
/// given fault.
pub(crate) fn set_once<T: Drop>(
    before: &Option<T>,
    bad: LineFault,
    value: Option<T>,
) -> Result<T, LineFault>
    ensures { result ≡ lines.set_once before.now bad value }
{
    if before.is_some() {
        return Err(LineFault::Count);
    }
    match value {
        Some(value) => Ok(value),
        None => Err(bad),
    }
}

/// One more line of a part.
#[tactic(auto, unfolding(crate::specs::PartLines::part_line))]
pub(crate) fn part_line(
    alloc: Global,
    mut part: OpenPart,
    name: &[u8],
    value: &[u8],
) -> Result<OpenPart, LineFault>
    ensures found { IfOk result (λ now. lines.part_line part name.now value.now ≡ Ok now) }
    ensures fault { IfErr result (λ e. e ≢ LineFault.NoMemory
        → lines.part_line part name.now value.now ≡ Err e) }
{
    if is_word(name, b"DTSTART") {
        let start = Bytes::from_slice(alloc, value)?;
        let start = set_once(&part.start, LineFault::Value, Some(start))?;
        part.start = Some(start);
        return Ok(part);
    }
    if is_word(name, b"TZOFFSETFROM") {
        let from = set_once(&part.from, LineFault::Value, offset_in(value))?;
        part.from = Some(from);
        return Ok(part);
    }
    if is_word(name, b"TZOFFSETTO") {
        let to = set_once(&part.to, LineFault::Value, offset_in(value))?;
        part.to = Some(to);
        return Ok(part);
    }
    more_line(alloc, part, name, value)
}

/// Reads one more line of a part, which is neither its start nor an offset.
#[tactic(auto, unfolding(crate::specs::PartLines::more_line))]
fn more_line(
    alloc: Global,
    mut part: OpenPart,
    name: &[u8],
    value: &[u8],
) -> Result<OpenPart, LineFault>
    ensures found { IfOk result (λ now. lines.more_line part name.now value.now ≡ Ok now) }
    ensures fault { IfErr result (λ e. e ≢ LineFault.NoMemory
        → lines.more_line part name.now value.now ≡ Err e) }
{
    if is_word(name, b"RRULE") {
        let recur = set_once(&part.recur, LineFault::Rule, recur_in(value))?;
        part.recur = Some(recur);
        return Ok(part);
    }
    if is_word(name, b"RDATE") {
        add_dates(alloc, &mut part.dates, value)?;
        return Ok(part);
    }
    if is_word(name, b"TZNAME") {
        let name = part.name.take();
        part.name = name_with(name, value);
        return Ok(part);
    }
    Ok(part)
}

/// Keeps the first name.
fn name_with(name: Option<Name>, value: &[u8]) -> Option<Name>
    ensures { result ≡ lines.name_with name value.now }
{
    match name {
        Some(name) => Some(name),
        None => name_in(value),
    }
}

/// Adds the texts between commas.
fn add_dates(alloc: Global, dates: &mut Items<Bytes>, value: &[u8]) -> Result<(), NoMemory>
    ensures { OnOk result (dates.new ≡ dates.old ++ cut_at 44 value.now) }
{
    let mut left = Some(value);
    'dates: while let Some(some) = left {
        let (date, rest) = cut(some, b',');
        dates.push(Bytes::from_slice(alloc, date)?)?;
        left = rest;
    }
    Ok(())
}

/// The name that a value encodes: at most 32 visible bytes of ASCII.
fn name_in(value: &[u8]) -> Option<Name>
    ensures { result ≡ lines.name_in value.now }
{
    if value.len() > 32 || !are_visible(value) {
        return None;
    }
    let mut name = Name::new();
    name.append(value);
    Some(name)
}

fn are_visible(text: &[u8]) -> bool
    ensures { result ≡ list_all lines.is_visible text.now }
{
    for byte in text {
        if *byte < 33 || *byte > 126 {
            return false;
        }
    }
    true
}

/// The part, once all its lines have been read.
#[tactic(auto, unfolding(crate::specs::PartLines::part_of))]
pub(crate) fn part_of(alloc: Global, part: OpenPart) -> Result<Part, LineFault>
    ensures found { IfOk result (λ p. lines.part_of part ≡ Ok p) }
    ensures fault { IfErr result (λ e. e ≢ LineFault.NoMemory → lines.part_of part ≡ Err e) }
{
    let Some(start) = &part.start else {
        return Err(LineFault::Count);
    };
    let Some(from) = part.from else {
        return Err(LineFault::Count);
    };
    let Some(to) = part.to else {
        return Err(LineFault::Count);
    };
    let Some(start) = moment_by(from, start.as_slice()) else {
        return Err(LineFault::Value);
    };
    let Some(dates) = moments_by(alloc, from, part.dates.as_slice())? else {
        return Err(LineFault::Value);
    };
    Ok(made(&part, from, to, start, dates))
}

/// The part of these values.
fn made(part: &OpenPart, from: i32, to: i32, start: Moment, dates: Moments) -> Part
    requires { HasMeaning start.seconds }
    ensures { result ≡ lines.made part.now from to start dates }
{
    let recur = part.recur;
    Part {
        dst: part.dst,
        start,
        from,
        to,
        name: name_or_none(&part.name),
        rule: rule_at(start, from, recur),
        until: last_of(recur),
        dates,
    }
}

/// The moments of local times at an offset, if each has one; else None.
#[tactic(auto, unfolding(crate::specs::TimeTexts::moments_by))]
fn moments_by(alloc: Global, offset: i32, texts: &[Bytes]) -> Result<Option<Moments>, NoMemory>
    ensures { IfOk result (λ moments. moments ≡ times.moments_by offset texts.now) }
{
    let mut moments = Moments::new(alloc);
    for text in texts {
        let Some(moment) = moment_by(offset, text.as_slice()) else {
            return Ok(None);
        };
        moments.push(moment)?;
    }
    Ok(Some(moments))
}

fn name_or_none(name: &Option<Name>) -> Name
    ensures { result ≡ lines.name_or_none name.now }
{
    match name {
        Some(name) => name.copy(),
        None => Name::new(),
    }
}

/// The second of the day that clocks show at a moment. The offset is in seconds east of UTC.
fn second_shown(moment: Moment, offset: i32) -> u32
    requires { HasMeaning moment.seconds }
    ensures { result
        ≡ unsigned_abs (int_rem_euclid (moment.seconds +ℤ offset) (pos 86_400)) }
{
    (moment.seconds + i64::from(offset)).rem_euclid(86_400) as u32
}

/// The rule at the time of day that clocks show at the part's start.
fn rule_at(start: Moment, offset: i32, recur: Option<Recur>) -> Option<Rule>
    requires { HasMeaning start.seconds }
    ensures { result ≡ option_map (lines.rule_at (start.seconds +ℤ offset)) recur }
{
    let recur = recur?;
    Some(Rule {
        form: recur.form,
        second: second_shown(start, offset),
    })
}

fn last_of(recur: Option<Recur>) -> Option<Moment>
    ensures { result ≡ option_and_then (λ r. r.until) recur }
{
    recur?.until
}
