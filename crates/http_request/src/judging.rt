ghost use Rattle.std.specs.Prelude.{◌≡◌, length, map, All, IfOk};
ghost use Rattle.httparse.specs.Spans.{IsHeaderWithin, header_bytes};
ghost use Rattle.td_base.specs.TargetForm.{has_form};
ghost use Rattle.http_request.specs.Judging.{asked, closes, is_served, is_well_formed, refusal};

use crate::Head;
use crate::fields::{all_hosts, all_zero, closes_any, count_named, joined};
use http::header::{ACCEPT, CONTENT_LENGTH, HOST, IF_NONE_MATCH, TRANSFER_ENCODING};
use http::{Method, StatusCode};
use httparse::spans::HeaderSpan;
use std::alloc::Global;
use td_base::texts::begins;
use td_base::{Bytes, NoMemory};

/// Whether the target is in origin form or in absolute form.
#[tactic(auto, unfolding(td_base::specs::TargetForm::has_form))]
fn is_target(target: &[u8]) -> bool
    ensures { result ≡ has_form target.now }
{
    begins(target, b"/") || begins(target, b"http://") || begins(target, b"https://")
}

/// Whether the head is valid and may be served.
fn is_sound(buf: &[u8], target: &[u8], minor: u8, fields: &[HeaderSpan]) -> bool
    requires { All (IsHeaderWithin (length buf.now)) fields.now }
    ensures { result
        ≡ is_well_formed minor target.now (map (header_bytes buf.now) fields.now) }
{
    let hosts = count_named(buf, fields, HOST.as_str().as_bytes());
    (hosts == 1 || (minor == 0 && hosts == 0))
        && all_hosts(buf, fields, HOST.as_str().as_bytes())
        && count_named(buf, fields, TRANSFER_ENCODING.as_str().as_bytes()) == 0
        && all_zero(buf, fields, CONTENT_LENGTH.as_str().as_bytes())
        && is_target(target)
}

/// Whether the connection closes after the reply.
fn is_last(buf: &[u8], minor: u8, fields: &[HeaderSpan]) -> bool
    requires { All (IsHeaderWithin (length buf.now)) fields.now }
    ensures { result ≡ closes minor (map (header_bytes buf.now) fields.now) }
{
    minor == 0 || closes_any(buf, fields)
}

/// The status of a refusal. `None` if the head is not refused.
#[tactic(auto, unfolding(crate::specs::Judging::refusal))]
pub fn refusal(
    buf: &[u8],
    method: &[u8],
    target: &[u8],
    minor: u8,
    fields: &[HeaderSpan],
) -> Option<u16>
    requires { All (IsHeaderWithin (length buf.now)) fields.now }
    ensures { result
        ≡ refusal method.now target.now minor (map (header_bytes buf.now) fields.now) }
{
    if !is_served(method) {
        return Some(StatusCode::METHOD_NOT_ALLOWED.as_u16());
    }
    if !is_sound(buf, target, minor, fields) {
        return Some(StatusCode::BAD_REQUEST.as_u16());
    }
    None
}

/// Whether the method is GET or HEAD.
fn is_served(method: &[u8]) -> bool
    ensures { result ≡ is_served method.now }
{
    method == Method::GET.as_str().as_bytes() || method == Method::HEAD.as_str().as_bytes()
}

/// The parts of the head that decide the reply.
pub fn asked(
    alloc: Global,
    buf: &[u8],
    method: &[u8],
    target: &[u8],
    minor: u8,
    fields: &[HeaderSpan],
) -> Result<Head, NoMemory>
    requires { All (IsHeaderWithin (length buf.now)) fields.now }
    ensures { IfOk result (λ head.
        head ≡ asked method.now target.now minor (map (header_bytes buf.now) fields.now)) }
{
    Ok(Head {
        head_only: method == Method::HEAD.as_str().as_bytes(),
        target: Bytes::from_slice(alloc, target)?,
        accept: joined(alloc, buf, fields, ACCEPT.as_str().as_bytes())?,
        none_match: joined(alloc, buf, fields, IF_NONE_MATCH.as_str().as_bytes())?,
        close: is_last(buf, minor, fields),
    })
}
