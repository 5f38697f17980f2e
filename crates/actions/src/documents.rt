ghost use Rattle.std.specs.Prelude.{◌≡◌, IfOk};
ghost use Rattle.actions.specs.Documents.{with_data, with_document, with_problem};
ghost use Rattle.actions.specs.Documents.{not_modified, unknown_action};

use http_answer::{Answer, Kind};
use json_forms::{Problem, problem_text};
use std::alloc::Global;
use td_base::{Bytes, NoMemory};

/// An answer with a JSON document.
pub fn document(body: Bytes) -> Answer
    ensures { result ≡ with_document body }
{
    Answer {
        status: 200,
        kind: Some(Kind::Json),
        tag: None,
        moved: false,
        body,
    }
}

/// A refusal, with a problem document as its body (RFC 7807).
pub fn refusal(alloc: Global, problem: Problem) -> Result<Answer, NoMemory>
    ensures { IfOk result (λ answer. answer ≡ with_problem problem) }
{
    let mut body = Bytes::new(alloc);
    problem_text(alloc, &mut body, problem)?;
    Ok(Answer {
        status: problem.status(),
        kind: Some(Kind::Problem),
        tag: None,
        moved: false,
        body,
    })
}

/// The refusal of a request target that names no action.
pub fn unknown_action(alloc: Global) -> Result<Answer, NoMemory>
    ensures { IfOk result (λ answer. answer ≡ unknown_action) }
{
    refusal(alloc, Problem::InvalidAction)
}

/// An answer with the data of a zone.
pub fn zone_data(kind: Kind, tag: Bytes, body: Bytes) -> Answer
    ensures { result ≡ with_data kind tag body }
{
    Answer {
        status: 200,
        kind: Some(kind),
        tag: Some(tag),
        moved: false,
        body,
    }
}

/// The answer to a client that already has the data of this tag.
pub fn not_modified(alloc: Global, tag: Bytes) -> Answer
    ensures { result ≡ not_modified tag }
{
    Answer {
        status: 304,
        kind: None,
        tag: Some(tag),
        moved: false,
        body: Bytes::new(alloc),
    }
}
