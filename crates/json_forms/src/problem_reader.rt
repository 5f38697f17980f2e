ghost use Rattle.std.specs.Prelude.{◌≡◌, IfOk, find, option_and_then};
ghost use Rattle.serde_json.specs.View.{view};
ghost use Rattle.json_forms.specs.ProblemDocument.{has_type, type_member, problem_named};
ghost use Rattle.json_forms.specs.ProblemDocument.{problem_in};

use crate::Problem;
use crate::json_reader::read_value;
use crate::members::text_member;
use serde_json::Value;
use std::alloc::Global;
use td_base::NoMemory;

const PROBLEMS: &[Problem] = &[
    Problem::InvalidAction,
    Problem::InvalidChangedsince,
    Problem::TzidNotFound,
    Problem::InvalidFormat,
    Problem::InvalidStart,
    Problem::InvalidEnd,
    Problem::InvalidPattern,
];

/// The problem that a body reports (RFC 7807, section 3.1). None where the bytes are not a JSON
/// object, or its member `type` is none of the types of [`Problem`].
pub fn read_problem(alloc: Global, bytes: &[u8]) -> Result<Option<Problem>, NoMemory>
    ensures { IfOk result (λ found. found ≡ problem_in bytes.now) }
{
    match read_value(alloc, bytes)? {
        Some(value) => Ok(problem_of(&value)),
        None => Ok(None),
    }
}

/// The problem that a value reports.
fn problem_of(value: &Value) -> Option<Problem>
    ensures { result ≡ option_and_then problem_named (type_member (view value.now)) }
{
    match text_member(value, "type") {
        Some(urn) => named_in(PROBLEMS, urn),
        None => None,
    }
}

/// The first of the problems that the URN identifies.
#[tactic(auto, unfolding(crate::specs::ProblemDocument::has_type))]
fn named_in(problems: &[Problem], urn: &str) -> Option<Problem>
    ensures { result ≡ find (has_type urn.now) problems.now }
{
    for problem in problems {
        if problem.urn() == urn {
            return Some(*problem);
        }
    }
    None
}
