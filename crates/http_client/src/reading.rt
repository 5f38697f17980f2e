ghost use Rattle.std.specs.Prelude.{◌≡◌, ◌≢◌, ◌≤◌, length, IfOk, IfErr, Ok, Err};
ghost use Rattle.httparse.specs.Spans.{IsResponseWithin, IsResponseOf};
ghost use Rattle.http_client.specs.Replies.{IsReading};
ghost use Rattle.http_client.specs.declared.limits.TheConstants.{MOST_FIELDS};
ghost use Rattle.http_client.specs.declared.reply.BadReply.TheVariants as bad;
ghost use Rattle.http_client.specs.declared.reply.Reply.{Reply};

use crate::framing::fault_place;
use crate::limits::MOST_FIELDS;
use crate::{BadReply, Reply};
use httparse::Status;
use httparse::spans::{EMPTY_HEADER_SPAN, HeaderSpan, ResponseSpans, parse_response};
use std::alloc::Global;
use td_base::Bytes;
use td_base::texts::skip;

/// Reads the bytes as one whole reply (RFC 9112, section 6.3). A reply with Transfer-Encoding is
/// refused.
pub fn read(alloc: Global, bytes: &[u8]) -> Result<Reply, BadReply>
    ensures found { IfOk result (λ reply. IsReading bytes.now (Ok reply)) }
    ensures fault { IfErr result (λ e. e ≢ bad.NoMemory → IsReading bytes.now (Err e)) }
    ensures memory { IfErr result
        (λ e. e ≡ bad.NoMemory → (reply : Reply) × IsReading bytes.now (Ok reply)) }
{
    let mut room = [EMPTY_HEADER_SPAN; MOST_FIELDS];
    match parse_response(bytes, &mut room) {
        Ok(Status::Complete(spans)) => read_spans(alloc, bytes, &room, spans),
        Ok(Status::Partial) => Err(BadReply::BadReply(0)),
        Err(_) => Err(BadReply::BadReply(0)),
    }
}

/// The same, after the head was parsed.
fn read_spans(
    alloc: Global,
    bytes: &[u8],
    room: &[HeaderSpan],
    spans: ResponseSpans,
) -> Result<Reply, BadReply>
    requires room { length room.now ≤ MOST_FIELDS }
    requires within { IsResponseWithin bytes.now room.now spans }
    requires head { IsResponseOf bytes.now room.now spans }
    ensures found { IfOk result (λ reply. IsReading bytes.now (Ok reply)) }
    ensures fault { IfErr result (λ e. e ≢ bad.NoMemory → IsReading bytes.now (Err e)) }
    ensures memory { IfErr result
        (λ e. e ≡ bad.NoMemory → (reply : Reply) × IsReading bytes.now (Ok reply)) }
{
    let fields = &room[..spans.headers];
    let body = skip(bytes, spans.len);
    match fault_place(bytes, fields, spans.len, body.len()) {
        Some(place) => Err(BadReply::BadReply(place)),
        None => {
            let body = Bytes::from_slice(alloc, body)?;
            Ok(Reply {
                status: spans.code,
                body,
            })
        }
    }
}
