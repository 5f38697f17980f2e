ghost use Rattle.std.specs.Prelude.{◌≡◌, ◌++◌, IfOk, OnOk, OnErr};
ghost use Rattle.http_client.specs.Requests as requests;

use percent_encoding::{AsciiSet, NON_ALPHANUMERIC, ascii_set, percent_encode};
use std::alloc::Global;
use td_base::{Ask, Bytes, NoMemory};

/// The bytes that are percent-encoded in a target: all that are not unreserved (RFC 3986, section
/// 2.3).
pub const ESCAPED: AsciiSet = ascii_set!(
    NON_ALPHANUMERIC
        .remove(b'-')
        .remove(b'.')
        .remove(b'_')
        .remove(b'~')
);

/// Appends the request, with this Host (RFC 9112, section 3.2). When out of memory, nothing is
/// appended.
pub fn request(alloc: Global, out: &mut Bytes, ask: &Ask, host: &[u8]) -> Result<(), NoMemory>
    ensures ok { OnOk result (out.new ≡ out.old ++ requests.request_text host.now ask.now) }
    ensures err { OnErr result (out.new ≡ out.old) }
{
    let text = request_text(alloc, ask, host)?;
    out.append(text.as_slice())
}

/// The bytes of the request.
fn request_text(alloc: Global, ask: &Ask, host: &[u8]) -> Result<Bytes, NoMemory>
    ensures { IfOk result (λ text. text ≡ requests.request_text host.now ask.now) }
{
    let mut out = Bytes::new(alloc);
    put_request_line(&mut out, ask)?;
    put_enclosed(&mut out, b"Host: ", host, b"\r\n")?;
    let end = b"\r\nConnection: close\r\n\r\n";
    put_enclosed(&mut out, b"Accept: ", accepted(ask), end)?;
    Ok(out)
}

/// Appends the request line, with its CRLF.
pub fn put_request_line(out: &mut Bytes, ask: &Ask) -> Result<(), NoMemory>
    ensures { OnOk result (out.new ≡ out.old ++ requests.request_line ask.now) }
{
    out.append(b"GET ")?;
    put_target(out, ask)?;
    out.append(b" HTTP/1.0\r\n")?;
    Ok(())
}

/// Appends the text between `front` and `end`.
pub fn put_enclosed(out: &mut Bytes, front: &[u8], text: &[u8], end: &[u8]) -> Result<(), NoMemory>
    ensures { OnOk result (out.new ≡ out.old ++ requests.enclosed front.now text.now end.now) }
{
    out.append(front)?;
    out.append(text)?;
    out.append(end)?;
    Ok(())
}

/// The media type of the Accept field.
#[tactic(auto, unfolding(crate::specs::Requests::accepted))]
fn accepted(ask: &Ask) -> &'static [u8]
    ensures { result.now ≡ requests.accepted ask.now }
{
    match ask {
        Ask::List(_) => b"application/json",
        Ask::Get(_) => b"application/tzif",
    }
}

fn put_target(out: &mut Bytes, ask: &Ask) -> Result<(), NoMemory>
    ensures { OnOk result (out.new ≡ out.old ++ requests.target_of ask.now) }
{
    match ask {
        Ask::List(token) => put_list_target(out, token),
        Ask::Get(name) => put_named(out, b"/tzdist/zones/", name.as_slice()),
    }
}

fn put_list_target(out: &mut Bytes, token: &Option<Bytes>) -> Result<(), NoMemory>
    ensures { OnOk result (out.new ≡ out.old ++ requests.list_target token.now) }
{
    match token {
        Some(token) => put_named(out, b"/tzdist/zones?changedsince=", token.as_slice()),
        None => out.append(b"/tzdist/zones"),
    }
}

/// Appends a path and the percent-encoded text.
fn put_named(out: &mut Bytes, path: &[u8], text: &[u8]) -> Result<(), NoMemory>
    ensures { OnOk result (out.new ≡ out.old ++ (path.now ++ requests.escaped text.now)) }
{
    out.append(path)?;
    put_escaped(out, text)?;
    Ok(())
}

fn put_escaped(out: &mut Bytes, text: &[u8]) -> Result<(), NoMemory>
    ensures { OnOk result (out.new ≡ out.old ++ requests.escaped text.now) }
{
    for piece in percent_encode(text, ESCAPED) {
        out.append(piece.as_bytes())?;
    }
    Ok(())
}
