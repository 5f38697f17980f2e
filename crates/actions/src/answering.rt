ghost use Rattle.std.specs.Prelude.{◌≡◌, IfOk, IsTrue};
ghost use Rattle.td_base.specs.TargetForm.{has_form};
ghost use Rattle.http_answer.specs.Replies.{IsAnswerStatus};
ghost use Rattle.json_forms.specs.PlainTexts.{IsPlainRole};
ghost use Rattle.zone_meaning.specs.ZoneHistories.{ForEachZoneHistory, HasZoneHistory};
ghost use Rattle.actions.specs.Action.{action, answer_for};

use crate::describing::{capabilities, redirect};
use crate::documents::unknown_action;
use crate::expanding::expand;
use crate::finding::find;
use crate::getting::get;
use crate::leap_seconds::leap_seconds;
use crate::listing::list;
use catalogue::Catalogue;
use http_answer::Answer;
use http_request::Head;
use std::alloc::Global;
use target::{Asked, read};
use td_base::{NoMemory, Role};
use zone_meaning::Zone;

/// Answers a request over the newest release of a catalogue. Every refusal of RFC 7808 is an
/// answer.
#[tactic(auto, unfolding(crate::specs::Action::action))]
pub fn answer(
    alloc: Global,
    catalogue: &Catalogue<Zone>,
    role: &Role,
    head: &Head,
) -> Result<Answer, NoMemory>
    requires history { HasZoneHistory catalogue.now }
    requires role { IsPlainRole role.now }
    requires form { IsTrue (has_form head.now.target) }
    ensures answer { ForEachZoneHistory catalogue.now (λ H.
        IfOk result (λ answer. answer ≡ action H role.now head.now)) }
    ensures status { IfOk result (λ answer. IsAnswerStatus answer.status) }
{
    let asked = read(alloc, head.target.as_slice())?;
    answer_to(alloc, catalogue, role, head, &asked)
}

/// Answers a request, given the action that its target names.
fn answer_to(
    alloc: Global,
    catalogue: &Catalogue<Zone>,
    role: &Role,
    head: &Head,
    asked: &Asked,
) -> Result<Answer, NoMemory>
    requires history { HasZoneHistory catalogue.now }
    requires role { IsPlainRole role.now }
    ensures answer { ForEachZoneHistory catalogue.now (λ H.
        IfOk result (λ answer. answer ≡ answer_for H role.now head.now asked.now)) }
    ensures status { IfOk result (λ answer. IsAnswerStatus answer.status) }
{
    match asked {
        Asked::Capabilities => capabilities(alloc, catalogue, role),
        Asked::List(since) => list(alloc, catalogue, since),
        Asked::Find(pattern) => find(alloc, catalogue, pattern),
        Asked::Expand { tzid, start, end } => expand(alloc, catalogue, tzid, start, end),
        Asked::WellKnown => Ok(redirect(alloc)),
        Asked::Get { tzid, start, end } => get(alloc, catalogue, head, tzid, start, end),
        Asked::LeapSeconds => leap_seconds(alloc, catalogue),
        Asked::Unknown => unknown_action(alloc),
    }
}
