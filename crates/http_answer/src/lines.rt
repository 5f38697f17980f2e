ghost use Rattle.std.specs.Prelude.{◌≡◌};
ghost use Rattle.http_answer.specs.Parts.{parts_text};
ghost use Rattle.http_answer.specs.Replies.{close_lines, body_sent, location_lines, type_lines};

use crate::{Answer, Kind};

/// The Content-Type line.
#[tactic(auto, unfolding(crate::specs::Replies::type_lines))]
pub fn type_line(kind: Option<Kind>) -> &'static [u8]
    ensures { result.now ≡ parts_text (type_lines kind) }
{
    match kind {
        None => b"",
        Some(Kind::Json) => b"Content-Type: application/json\r\n",
        Some(Kind::Problem) => b"Content-Type: application/problem+json\r\n",
        Some(Kind::Calendar) => b"Content-Type: text/calendar; charset=utf-8\r\n",
        Some(Kind::Tzif) => b"Content-Type: application/tzif\r\n",
        Some(Kind::CalendarJson) => b"Content-Type: application/calendar+json\r\n",
    }
}

/// The Location line, if the answer has one.
#[tactic(auto, unfolding(crate::specs::Replies::location_lines))]
pub fn location_line(moved: bool) -> &'static [u8]
    ensures { result.now ≡ parts_text (location_lines moved) }
{
    if moved { b"Location: /tzdist\r\n" } else { b"" }
}

/// The Connection line of a reply that closes.
#[tactic(auto, unfolding(crate::specs::Replies::close_lines))]
pub fn close_line(close: bool) -> &'static [u8]
    ensures { result.now ≡ parts_text (close_lines close) }
{
    if close { b"Connection: close\r\n" } else { b"" }
}

/// The body as written: empty with 304 and for HEAD.
pub fn content(answer: &Answer, head_only: bool) -> &[u8]
    ensures { result.now ≡ body_sent answer.now head_only }
{
    if answer.status == 304 || head_only {
        b""
    } else {
        answer.body.as_slice()
    }
}
