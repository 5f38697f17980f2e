ghost use Rattle.std.specs.Prelude.{◌≡◌};
ghost use Rattle.http_answer.specs.Replies.{IsFixedStatus, fixed};

/// The reply to a head that is not served, after which the connection closes: status 400, 405 or
/// 431, or 503 when out of memory.
pub fn fixed(status: u16) -> &'static [u8]
    requires { IsFixedStatus status }
    ensures { result.now ≡ fixed status }
{
    match status {
        400 => b"HTTP/1.1 400 Bad Request\r\nContent-Length: 0\r\nConnection: close\r\n\r\n",
        405 =>
            b"HTTP/1.1 405 Method Not Allowed\r\nAllow: GET, HEAD\r\nContent-Length: 0\r\nConnection: close\r\n\r\n",
        431 =>
            b"HTTP/1.1 431 Request Header Fields Too Large\r\nContent-Length: 0\r\nConnection: close\r\n\r\n",
        _ => b"HTTP/1.1 503 Service Unavailable\r\nContent-Length: 0\r\nConnection: close\r\n\r\n",
    }
}
