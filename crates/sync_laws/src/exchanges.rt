//! Laws of one exchange, each the contract of a function that does nothing.
ghost use Rattle.std.specs.Prelude.{◌≡◌, ℕ, List, [], ◌∷◌, codes, Ok, IsTrue};
ghost use Rattle.httparse.specs.Grammar.{ReadsRequest, ReadsResponse, RequestHead, ResponseHead};
ghost use Rattle.td_base.specs.declared.report.Ask.{Ask};
ghost use Rattle.json_forms.specs.declared.zone_list.ListDoc.{ListDoc};
ghost use Rattle.http_client.specs.CalendarRequests.{calendar_request_text};
ghost use Rattle.http_client.specs.Replies.{IsReading};
ghost use Rattle.http_client.specs.Requests.{request_text};
ghost use Rattle.http_client.specs.SentHeads.{is_visible_text};
ghost use Rattle.http_client.specs.declared.reply.Reply.{Reply};
ghost use Rattle.sync_core.specs.declared.heard_type.Heard.TheVariants as heard;
ghost use Rattle.mirror.specs.Understanding.{Means};
ghost use Rattle.mirror.specs.declared.understood_type.Understood.TheVariants as understood;
ghost use Rattle.sync_laws.specs.Fields.{HasLength, fields_named};
ghost use Rattle.sync_laws.specs.Responses.{IsListResponse, IsTokenRefusal, IsZoneResponse};

use http_client::{calendar_requests_are_heads, requests_are_heads};

/// Any head that a request reads as has one Host field, with the host (RFC 9112, section 3.2).
/// Fails if a request has no such field, two of them, or another host.
pub fn requests_name_their_host()
    ensures files { (host : List ℕ) (a : Ask) (head : RequestHead)
        → IsTrue (is_visible_text host) → ReadsRequest (request_text host a) head []
        → fields_named (codes "host") head.fields ≡ (codes "Host", host) ∷ [] }
    ensures calendars { (host : List ℕ) (a : Ask) (head : RequestHead)
        → IsTrue (is_visible_text host) → ReadsRequest (calendar_request_text host a) head []
        → fields_named (codes "host") head.fields ≡ (codes "Host", host) ∷ [] }
{
    requests_are_heads();
    calendar_requests_are_heads();
}

/// A response that is read has no Transfer-Encoding and at most one Content-Length, the length of
/// its body (RFC 9112, section 6.3). Fails if the first of two lengths is used, or if a body of
/// another length is taken.
pub fn responses_end_by_their_length()
    ensures { (bytes body : List ℕ) (reply : Reply) (head : ResponseHead)
        → IsReading bytes (Ok reply) → ReadsResponse bytes head body
        → HasLength head.fields body }
{}

/// A list and the data of a zone are taken with status 200 only. A token is dropped with status 400
/// only (RFC 7808, section 5.2). Fails if another status is taken, as 206 with a part of a file.
pub fn responses_are_taken_by_status()
    ensures lists { (a : Ask) (bytes : List ℕ) (doc : ListDoc)
        → Means a bytes (understood.Hears (heard.List doc)) → IsListResponse a bytes doc }
    ensures zones { (a : Ask) (bytes file : List ℕ)
        → Means a bytes (understood.Hears (heard.Zone file)) → IsZoneResponse a bytes file }
    ensures refusals { (a : Ask) (bytes : List ℕ)
        → Means a bytes (understood.Hears heard.BadToken) → IsTokenRefusal a bytes }
{}
