ghost use Rattle.std.specs.Prelude.{◌≡◌};
ghost use Rattle.http_answer.specs.Replies.{IsAnswerStatus, phrase};

use http::StatusCode;

/// The status of an answer, as the `http` type.
pub fn status_of(status: u16) -> StatusCode
    requires { IsAnswerStatus status }
    ensures { result ≡ status }
{
    match status {
        200 => StatusCode::OK,
        301 => StatusCode::MOVED_PERMANENTLY,
        304 => StatusCode::NOT_MODIFIED,
        400 => StatusCode::BAD_REQUEST,
        404 => StatusCode::NOT_FOUND,
        _ => StatusCode::NOT_ACCEPTABLE,
    }
}

/// The reason phrase of a status.
#[tactic(auto, unfolding(crate::specs::Replies::phrase))]
pub fn phrase_of(status: StatusCode) -> &'static [u8]
    ensures { result.now ≡ phrase status }
{
    status.canonical_reason().unwrap_or("").as_bytes()
}
