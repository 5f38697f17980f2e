//! Whether a value is a list of time zones.
ghost use Rattle.std.specs.Prelude.{◌≡◌, codes, false, nat_le};
ghost use Rattle.std.specs.List.{list_all};
ghost use Rattle.std.specs.Option.{option_map_or};
ghost use Rattle.serde_json.specs.Events.{items_len};
ghost use Rattle.serde_json.specs.Find.{get, as_str, as_array};
ghost use Rattle.serde_json.specs.View.{view, items_view};
ghost use Rattle.td_base.specs.Names as names;
ghost use Rattle.catalogue.specs.Plain as plain;
ghost use Rattle.json_forms.specs.ListReading as reading;

use crate::members::{array_member, text_member};
use catalogue::{MOST_NAMES, MOST_ZONES};
use serde_json::Value;
use td_base::{is_identifier, is_label};
use td_civil::moment_of;

/// Where the value stops being a list: 0 for the value itself, and the numbers from 1 for its
/// entries. None for a list.
#[tactic(auto, unfolding(crate::specs::ListReading::list_fault))]
pub(crate) fn list_fault(list: &Value) -> Option<usize>
    ensures { result ≡ reading.list_fault (view list.now) }
{
    if !is_list(list) {
        return Some(0);
    }
    match array_member(list, "timezones") {
        Some(entries) => entry_fault(entries),
        None => None,
    }
}

/// Whether the value is a list, regardless of its entries.
#[tactic(auto, unfolding(crate::specs::ListReading::is_list))]
fn is_list(list: &Value) -> bool
    ensures { result ≡ reading.is_list (view list.now) }
{
    has_token(list) && has_entries(list)
}

/// Whether the entries are an array within the limits of a release.
fn has_entries(list: &Value) -> bool
    ensures { result
        ≡ reading.entries_pass (reading.array_member (codes "timezones") (view list.now)) }
{
    match array_member(list, "timezones") {
        Some(entries) => are_within_limits(entries),
        None => false,
    }
}

fn are_within_limits(entries: &[Value]) -> bool
    ensures { result ≡ reading.entries_pass (Some (items_view entries.now)) }
{
    item_count(entries) <= MOST_ZONES && has_few_names(entries)
}

/// Whether the entries have no more names than a release may have.
fn has_few_names(entries: &[Value]) -> bool
    ensures { result ≡ nat_le (reading.name_count (items_view entries.now)) MOST_NAMES }
{
    let mut left = MOST_NAMES;
    for entry in entries {
        let aliases = alias_count(entry);
        if aliases >= left {
            return false;
        }
        left -= aliases + 1;
    }
    true
}

/// How many aliases an entry has.
#[tactic(auto, unfolding(crate::specs::ListReading::alias_count))]
fn alias_count(entry: &Value) -> usize
    ensures { result ≡ reading.alias_count (view entry.now) }
{
    match array_member(entry, "aliases") {
        Some(aliases) => item_count(aliases),
        None => 0,
    }
}

fn item_count(items: &[Value]) -> usize
    ensures { result ≡ items_len (items_view items.now) }
{
    items.len()
}

/// The number of the first bad entry, counted from 1.
fn entry_fault(entries: &[Value]) -> Option<usize>
    ensures { result ≡ reading.entry_fault 1 (items_view entries.now) }
{
    for (at, entry) in entries.iter().enumerate() {
        if !is_entry(entry) {
            return Some(at + 1);
        }
    }
    None
}

#[tactic(auto, unfolding(crate::specs::ListReading::is_entry))]
fn is_entry(entry: &Value) -> bool
    ensures { result ≡ reading.is_entry (view entry.now) }
{
    has_identifier(entry, "tzid")
        && has_text(entry, "etag")
        && has_moment(entry, "last-modified")
        && has_label(entry, "publisher")
        && has_label(entry, "version")
        && has_aliases(entry)
}

#[tactic(auto, unfolding(crate::specs::ListReading::has_text))]
fn has_token(object: &Value) -> bool
    ensures { result ≡ reading.has_text plain.is_token (codes "synctoken") (view object.now) }
{
    match text_member(object, "synctoken") {
        Some(text) => is_token(text.as_bytes()),
        None => false,
    }
}

fn is_token(text: &[u8]) -> bool
    ensures { result ≡ plain.is_token text.now }
{
    !text.is_empty() && text.len() <= 64 && has_token_bytes(text)
}

fn has_token_bytes(text: &[u8]) -> bool
    ensures { result ≡ list_all plain.is_token_byte text.now }
{
    text.iter().all(|byte| *byte >= b'!' && *byte <= b'~')
}

#[tactic(auto, unfolding(crate::specs::ListReading::has_text))]
fn has_identifier(object: &Value, name: &str) -> bool
    ensures { result ≡ reading.has_text names.is_identifier name.now (view object.now) }
{
    match text_member(object, name) {
        Some(text) => is_identifier(text.as_bytes()),
        None => false,
    }
}

#[tactic(auto, unfolding(crate::specs::ListReading::has_text))]
fn has_label(object: &Value, name: &str) -> bool
    ensures { result ≡ reading.has_text names.is_label name.now (view object.now) }
{
    match text_member(object, name) {
        Some(text) => is_label(text.as_bytes()),
        None => false,
    }
}

#[tactic(auto, unfolding(crate::specs::ListReading::has_text))]
fn has_moment(object: &Value, name: &str) -> bool
    ensures { result ≡ reading.has_text reading.is_moment_text name.now (view object.now) }
{
    match text_member(object, name) {
        Some(text) => moment_of(text.as_bytes()).is_ok(),
        None => false,
    }
}

#[tactic(auto, unfolding(crate::specs::ListReading::has_text))]
fn has_text(object: &Value, name: &str) -> bool
    ensures { result ≡ reading.has_text reading.is_any_text name.now (view object.now) }
{
    match text_member(object, name) {
        Some(_) => true,
        None => false,
    }
}

/// Whether the aliases are a list of identifiers, or are absent.
fn has_aliases(entry: &Value) -> bool
    ensures { result ≡ reading.aliases_pass (get (codes "aliases") (view entry.now)) }
{
    match entry.get("aliases") {
        Some(aliases) => is_identifier_list(aliases),
        None => true,
    }
}

fn is_identifier_list(value: &Value) -> bool
    ensures { result ≡ option_map_or reading.are_identifiers (as_array (view value.now)) false }
{
    match value.as_array() {
        Some(list) => are_identifiers(list.as_slice()),
        None => false,
    }
}

fn are_identifiers(values: &[Value]) -> bool
    ensures { result ≡ reading.are_identifiers (items_view values.now) }
{
    for value in values {
        if !is_identifier_text(value) {
            return false;
        }
    }
    true
}

fn is_identifier_text(value: &Value) -> bool
    ensures { result ≡ option_map_or names.is_identifier (as_str (view value.now)) false }
{
    match value.as_str() {
        Some(text) => is_identifier(text.as_bytes()),
        None => false,
    }
}
