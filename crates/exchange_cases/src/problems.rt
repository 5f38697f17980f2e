//! Problem documents and capabilities documents, as they are written.
ghost use Rattle.std.specs.Prelude.{IfOk};
ghost use Rattle.json_forms.specs.PlainTexts.{IsPlainRole};

use case_lines::{Answer, AnswerBuilder, CaseFault, Row};
use json_forms::{Problem, capabilities_text, problem_text};
use std::alloc::Global;
use td_base::{Bytes, Role};

fn problem_of(name: &str) -> Result<Problem, CaseFault> {
    match name {
        "invalid-action" => Ok(Problem::InvalidAction),
        "invalid-changedsince" => Ok(Problem::InvalidChangedsince),
        "tzid-not-found" => Ok(Problem::TzidNotFound),
        "invalid-format" => Ok(Problem::InvalidFormat),
        "invalid-start" => Ok(Problem::InvalidStart),
        "invalid-end" => Ok(Problem::InvalidEnd),
        "invalid-pattern" => Ok(Problem::InvalidPattern),
        _ => Err(CaseFault::Strange),
    }
}

/// `problem NAME`: the status of the reply, and the document.
pub fn problem(alloc: Global, row: &Row) -> Answer {
    let problem = problem_of(row.text(0)?)?;
    document(alloc, problem)
}

fn document(alloc: Global, problem: Problem) -> Answer {
    let mut out = before(alloc, problem)?;
    problem_text(alloc, &mut out, problem)?;
    Ok(out.into_vec())
}

/// The status of the reply to a problem, and a blank.
fn before(alloc: Global, problem: Problem) -> Result<Bytes, CaseFault> {
    let mut builder = AnswerBuilder::new(alloc);
    builder.add_debug(&problem.status());
    builder.add_bytes(b" ");
    Ok(Bytes::from(builder.finish()?))
}

fn role(alloc: Global, word: &str) -> Result<Role, CaseFault>
    ensures { IfOk result IsPlainRole }
{
    match word {
        "primary" => Ok(Role::Primary),
        "secondary" => Ok(Role::Secondary(Bytes::from_slice(alloc, b"192.0.2.1:8008")?)),
        _ => Err(CaseFault::Strange),
    }
}

fn has_leaps(word: &str) -> Result<bool, CaseFault> {
    match word {
        "with-leaps" => Ok(true),
        "without-leaps" => Ok(false),
        _ => Err(CaseFault::Strange),
    }
}

/// `capabilities ROLE LEAPS`: the capabilities of a server of the publisher `Test`.
pub fn capabilities(alloc: Global, row: &Row) -> Answer {
    let with_leaps = has_leaps(row.text(1)?)?;
    let role = role(alloc, row.text(0)?)?;
    capabilities_of(alloc, &role, with_leaps)
}

fn capabilities_of(alloc: Global, role: &Role, with_leaps: bool) -> Answer
    requires { IsPlainRole role.now }
{
    let mut out = Bytes::new(alloc);
    capabilities_text(alloc, &mut out, role, b"Test", with_leaps)?;
    Ok(out.into_vec())
}
