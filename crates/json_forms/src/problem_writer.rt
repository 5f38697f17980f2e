ghost use Rattle.std.specs.Prelude.{◌≡◌, ◌++◌, IfOk, OnOk, OnErr};
ghost use Rattle.serde_json.specs.View.{view};
ghost use Rattle.json_forms.specs.ProblemDocument.{problem_data, problem_document};

use crate::Problem;
use serde_json::{Value, json};
use std::alloc::Global;
use td_base::{Bytes, NoMemory};

/// Appends the problem as JSON (RFC 7807, section 3.1).
#[tactic(auto, using(crate::proofs::lemmas::ProblemReads::problem_has_no_float), unfolding(crate::specs::ProblemDocument::problem_document))]
pub fn problem_text(alloc: Global, out: &mut Bytes, problem: Problem) -> Result<(), NoMemory>
    ensures ok { OnOk result (out.new ≡ out.old ++ problem_document problem) }
    ensures err { OnErr result (out.new ≡ out.old) }
{
    let text = problem_value(alloc, problem)?.to_string(alloc)?;
    out.append(text.as_bytes())
}

/// The problem.
#[tactic(auto, unfolding(crate::specs::ProblemDocument::problem_data))]
fn problem_value(alloc: Global, problem: Problem) -> Result<Value, NoMemory>
    ensures { IfOk result (λ v. view v ≡ problem_data problem) }
{
    let value = json!(in alloc; {
        "status": problem.status(),
        "title": problem.title(),
        "type": problem.urn()
    })?;
    Ok(value)
}
