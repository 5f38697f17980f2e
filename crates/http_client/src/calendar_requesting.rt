ghost use Rattle.std.specs.Prelude.{◌≡◌, ◌++◌, IfOk, OnOk, OnErr};
ghost use Rattle.http_client.specs.CalendarRequests as requests;

use crate::requesting::{put_enclosed, put_request_line};
use std::alloc::Global;
use td_base::{Ask, Bytes, NoMemory};

/// Appends the request like [`request`](crate::request), but requests a zone as `text/calendar`
/// (RFC 7808, section 5.3). When out of memory, nothing is appended.
pub fn request_calendar(
    alloc: Global,
    out: &mut Bytes,
    ask: &Ask,
    host: &[u8],
) -> Result<(), NoMemory>
    ensures ok { OnOk result
        (out.new ≡ out.old ++ requests.calendar_request_text host.now ask.now) }
    ensures err { OnErr result (out.new ≡ out.old) }
{
    let text = calendar_request_text(alloc, ask, host)?;
    out.append(text.as_slice())
}

/// The bytes of the request.
fn calendar_request_text(alloc: Global, ask: &Ask, host: &[u8]) -> Result<Bytes, NoMemory>
    ensures { IfOk result (λ text. text ≡ requests.calendar_request_text host.now ask.now) }
{
    let mut out = Bytes::new(alloc);
    put_request_line(&mut out, ask)?;
    put_enclosed(&mut out, b"Host: ", host, b"\r\n")?;
    let end = b"\r\nConnection: close\r\n\r\n";
    put_enclosed(&mut out, b"Accept: ", calendar_accepted(ask), end)?;
    Ok(out)
}

/// The media type of the Accept field.
#[tactic(auto, unfolding(crate::specs::CalendarRequests::calendar_accepted))]
fn calendar_accepted(ask: &Ask) -> &'static [u8]
    ensures { result.now ≡ requests.calendar_accepted ask.now }
{
    match ask {
        Ask::List(_) => b"application/json",
        Ask::Get(_) => b"text/calendar",
    }
}
