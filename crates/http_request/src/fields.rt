ghost use Rattle.std.specs.Prelude.{◌≡◌, ◌==◌, length, map, All, IfOk, codes};
ghost use Rattle.std.specs.List.{list_all, list_any};
ghost use Rattle.std.specs.Str.{str_eq_ignore_ascii_case};
ghost use Rattle.httparse.specs.Spans.{IsHeaderWithin, header_bytes};
ghost use Rattle.td_base.specs.Texts.{field_values};
ghost use Rattle.http_request.specs.Joining.{joined_value};
ghost use Rattle.http_request.specs.Judging.{has_member, is_host, is_host_byte, is_zero};
ghost use Rattle.http_request.specs.Judging.{joined_values};

use http::header::CONNECTION;
use httparse::spans::HeaderSpan;
use std::alloc::Global;
use td_base::texts::{cut, is_same, trim};
use td_base::{Bytes, NoMemory};

/// Whether the field has this name, ignoring case.
fn is_named(buf: &[u8], field: HeaderSpan, name: &[u8]) -> bool
    requires { IsHeaderWithin (length buf.now) field }
    ensures { result ≡ str_eq_ignore_ascii_case (header_bytes buf.now field).0 name.now }
{
    is_same(field.name.of(buf), name)
}

/// How many fields have this name.
pub fn count_named(buf: &[u8], fields: &[HeaderSpan], name: &[u8]) -> usize
    requires { All (IsHeaderWithin (length buf.now)) fields.now }
    ensures { result ≡ length (field_values name.now (map (header_bytes buf.now) fields.now)) }
{
    let mut count = 0;
    for field in fields {
        if is_named(buf, *field, name) {
            count += 1;
        }
    }
    count
}

/// Whether a value is one or more zeros.
fn is_zeros(value: &[u8]) -> bool
    ensures { result ≡ is_zero value.now }
{
    !value.is_empty() && has_only_zeros(value)
}

/// Whether all bytes are zeros.
fn has_only_zeros(value: &[u8]) -> bool
    ensures { result ≡ list_all (λ b. b == 48) value.now }
{
    value.iter().all(|byte| *byte == b'0')
}

/// Whether each value under this name is one or more zeros.
pub fn all_zero(buf: &[u8], fields: &[HeaderSpan], name: &[u8]) -> bool
    requires { All (IsHeaderWithin (length buf.now)) fields.now }
    ensures { result ≡ list_all is_zero
        (field_values name.now (map (header_bytes buf.now) fields.now)) }
{
    for field in fields {
        if is_named(buf, *field, name) && !is_zeros(field.value.of(buf)) {
            return false;
        }
    }
    true
}

/// Whether a byte may occur in a host or a port.
fn is_host_byte(byte: u8) -> bool
    ensures { result ≡ is_host_byte byte }
{
    byte.is_ascii_alphanumeric() || b"-._~!$&'()*+,;=%:[]".contains(&byte)
}

/// Whether a value has only bytes of hosts and ports.
fn is_host(value: &[u8]) -> bool
    ensures { result ≡ is_host value.now }
{
    value.iter().all(|byte| is_host_byte(*byte))
}

/// Whether each value under this name is valid in a Host field.
pub fn all_hosts(buf: &[u8], fields: &[HeaderSpan], name: &[u8]) -> bool
    requires { All (IsHeaderWithin (length buf.now)) fields.now }
    ensures { result ≡ list_all is_host
        (field_values name.now (map (header_bytes buf.now) fields.now)) }
{
    for field in fields {
        if is_named(buf, *field, name) && !is_host(field.value.of(buf)) {
            return false;
        }
    }
    true
}

/// The values under this name, joined by a comma and a space.
#[tactic(auto, using(crate::proofs::JoinLemmas::joined_start))]
pub fn joined(
    alloc: Global,
    buf: &[u8],
    fields: &[HeaderSpan],
    name: &[u8],
) -> Result<Option<Bytes>, NoMemory>
    requires { All (IsHeaderWithin (length buf.now)) fields.now }
    ensures { IfOk result (λ all.
        all ≡ joined_values (field_values name.now (map (header_bytes buf.now) fields.now))) }
{
    let mut all = None;
    for field in fields {
        if is_named(buf, *field, name) {
            all = Some(with_value(alloc, all, field.value.of(buf))?);
        }
    }
    Ok(all)
}

/// The joined text with one more value at its end.
fn with_value(alloc: Global, all: Option<Bytes>, value: &[u8]) -> Result<Bytes, NoMemory>
    ensures { IfOk result (λ text. text ≡ joined_value all value.now) }
{
    match all {
        None => Bytes::from_slice(alloc, value),
        Some(mut text) => {
            text.append(b", ")?;
            text.append(value)?;
            Ok(text)
        }
    }
}

/// Whether the comma-separated list has this member, ignoring case.
fn is_listed(list: &[u8], member: &[u8]) -> bool
    ensures { result ≡ has_member member.now list.now }
{
    let mut left = Some(list);
    'members: while let Some(rest) = left {
        let (first, after) = cut(rest, b',');
        if is_same(trim(first), member) {
            return true;
        }
        left = after;
    }
    false
}

/// Whether a Connection field has the member `close`.
pub fn closes_any(buf: &[u8], fields: &[HeaderSpan]) -> bool
    requires { All (IsHeaderWithin (length buf.now)) fields.now }
    ensures { result ≡ list_any (has_member (codes "close"))
        (field_values (codes "connection") (map (header_bytes buf.now) fields.now)) }
{
    for field in fields {
        if is_named(buf, *field, CONNECTION.as_str().as_bytes())
            && is_listed(field.value.of(buf), b"close")
        {
            return true;
        }
    }
    false
}
