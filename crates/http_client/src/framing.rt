ghost use Rattle.std.specs.Prelude.{◌≡◌, ◌==◌, length, map, All, IsTrue};
ghost use Rattle.std.specs.List.{list_all};
ghost use Rattle.std.specs.Char.{is_ascii_digit};
ghost use Rattle.std.specs.Str.Parse.{digits_value};
ghost use Rattle.httparse.specs.Spans.{IsHeaderWithin, header_bytes};
ghost use Rattle.http_client.specs.Replies as replies;

use crate::fields::{count_named, first_named};
use httparse::spans::HeaderSpan;
use std::str;

/// Checks the fields that frame the body. `head` and `body` are their lengths in bytes. A fault is
/// the byte position from which the reply is invalid: 0 or the length of the head.
pub fn fault_place(buf: &[u8], fields: &[HeaderSpan], head: usize, body: usize) -> Option<usize>
    requires { All (IsHeaderWithin (length buf.now)) fields.now }
    ensures { result ≡ replies.fault_place
        (replies.framing (map (header_bytes buf.now) fields.now)) head body }
{
    let codings = count_named(buf, fields, b"transfer-encoding");
    if codings != 0 {
        return Some(0);
    }
    let lengths = count_named(buf, fields, b"content-length");
    if lengths > 1 {
        return Some(0);
    }
    match first_named(buf, fields, b"content-length") {
        Some(value) => length_fault(value, head, body),
        None => None,
    }
}

/// The same check for a single Content-Length value.
fn length_fault(value: &[u8], head: usize, body: usize) -> Option<usize>
    ensures { result ≡ replies.fault_place (replies.framed_by_size value.now) head body }
{
    if !is_number(value) {
        return Some(0);
    }
    if is_length(value, body) {
        None
    } else {
        Some(head)
    }
}

/// Whether the value is one or more digits.
fn is_number(value: &[u8]) -> bool
    ensures { result ≡ replies.is_digit_text value.now }
{
    !value.is_empty() && has_only_digits(value)
}

fn has_only_digits(value: &[u8]) -> bool
    ensures { result ≡ list_all is_ascii_digit value.now }
{
    value.iter().all(|byte| byte.is_ascii_digit())
}

/// Whether the digits write this number. They do not if their number is too large.
fn is_length(digits: &[u8], len: usize) -> bool
    requires { IsTrue (replies.is_digit_text digits.now) }
    ensures { result ≡ (digits_value 10 digits.now == len) }
{
    let Ok(text) = str::from_utf8(digits) else {
        return false;
    };
    match text.parse::<usize>() {
        Ok(number) => number == len,
        Err(_) => false,
    }
}
