ghost use Rattle.std.specs.Prelude.{◌≤◌, length, IfOk, OnErr};
ghost use Rattle.httparse.specs.Spans.{IsRequestWithin, IsRequestOf};
ghost use Rattle.http_request.specs.Readings.{ReadsHead, IsServedMethod};
ghost use Rattle.http_request.specs.declared.limits.TheConstants.{MOST_FIELDS};

use crate::judging::{asked, refusal};
use crate::limits::MOST_FIELDS;
use crate::step::Step;
use http::StatusCode;
use httparse::Status;
use httparse::spans::{EMPTY_HEADER_SPAN, HeaderSpan, RequestSpans, parse_request};
use std::alloc::Global;
use td_base::NoMemory;

/// How many fields are parsed at first. Most heads have fewer, and the room for them is cleared
/// each time.
const USUAL_FIELDS: usize = 16;

/// Reads a window, which ends with the end of a head. So the result is never to wait.
pub fn read(alloc: Global, window: &[u8]) -> Result<Step, NoMemory>
    ensures reads { IfOk result (ReadsHead window.now) }
    ensures err { OnErr result (IsServedMethod window.now) }
{
    let mut room = [EMPTY_HEADER_SPAN; USUAL_FIELDS];
    match parse_request(window, &mut room) {
        Ok(Status::Complete(spans)) => read_spans(alloc, window, &room, spans),
        _ => read_with_most(alloc, window),
    }
}

/// Reads a window again, with room for all fields that a head may have.
fn read_with_most(alloc: Global, window: &[u8]) -> Result<Step, NoMemory>
    ensures reads { IfOk result (ReadsHead window.now) }
    ensures err { OnErr result (IsServedMethod window.now) }
{
    let mut room = [EMPTY_HEADER_SPAN; MOST_FIELDS];
    match parse_request(window, &mut room) {
        Ok(Status::Complete(spans)) => read_spans(alloc, window, &room, spans),
        Ok(Status::Partial) => Ok(Step::Refused(StatusCode::BAD_REQUEST.as_u16())),
        Err(_) => Ok(Step::Refused(StatusCode::BAD_REQUEST.as_u16())),
    }
}

/// Checks the parsed head.
fn read_spans(
    alloc: Global,
    window: &[u8],
    room: &[HeaderSpan],
    spans: RequestSpans,
) -> Result<Step, NoMemory>
    requires room { length room.now ≤ MOST_FIELDS }
    requires within { IsRequestWithin window.now room.now spans }
    requires head { IsRequestOf window.now room.now spans }
    ensures reads { IfOk result (ReadsHead window.now) }
    ensures err { OnErr result (IsServedMethod window.now) }
{
    let method = spans.method.of(window);
    let target = spans.path.of(window);
    let fields = &room[..spans.headers];
    match refusal(window, method, target, spans.version, fields) {
        Some(status) => Ok(Step::Refused(status)),
        None => {
            let head = asked(alloc, window, method, target, spans.version, fields)?;
            Ok(Step::Taken(head, spans.len))
        }
    }
}
