ghost use Rattle.std.specs.Prelude.{◌≡◌, IfOk};
ghost use Rattle.td_base.specs.Names.{IsPlain};
ghost use Rattle.http_answer.specs.Replies.{IsAnswerStatus};
ghost use Rattle.zone_meaning.specs.Observed.{IsRange};
ghost use Rattle.zone_meaning.specs.Sound.{IsSoundFile};
ghost use Rattle.zone_meaning.specs.ZoneHistories.{ForEachZoneHistory, HasZoneHistory};
ghost use Rattle.actions.specs.Bounds.{bounds_in};
ghost use Rattle.actions.specs.Expanding.{expand_answer, expansion, expansion_between};
ghost use Rattle.actions.specs.declared.bounds.BoundRule.TheVariants as rule;

use crate::bounds::{BoundRule, begin_of, bounds_in, finish_of};
use crate::documents::{document, refusal};
use crate::periods::put_observed;
use catalogue::Catalogue;
use http_answer::Answer;
use json_forms::{ExpansionWriter, Problem};
use std::alloc::Global;
use target::Param;
use td_base::{Bytes, NoMemory};
use td_civil::Moment;
use zone_meaning::Zone;

/// Answers the action `expand` (RFC 7808, section 5.4).
pub fn expand(
    alloc: Global,
    catalogue: &Catalogue<Zone>,
    name: &Bytes,
    start: &Param,
    end: &Param,
) -> Result<Answer, NoMemory>
    requires { HasZoneHistory catalogue.now }
    ensures answer { ForEachZoneHistory catalogue.now (λ H.
        IfOk result (λ answer. answer ≡ expand_answer H name.now start.now end.now)) }
    ensures status { IfOk result (λ answer. IsAnswerStatus answer.status) }
{
    match catalogue.find_name(name.as_slice()) {
        Some(place) => expand_zone(
            alloc,
            name,
            &catalogue.entry(place).content.zone,
            start,
            end,
        ),
        None => refusal(alloc, Problem::TzidNotFound),
    }
}

/// Answers for the zone that was found.
#[tactic(auto, using(crate::proofs::BoundLemmas::range_is))]
fn expand_zone(
    alloc: Global,
    name: &Bytes,
    zone: &Zone,
    start: &Param,
    end: &Param,
) -> Result<Answer, NoMemory>
    requires name { IsPlain name.now }
    requires sound { IsSoundFile zone.now }
    ensures answer { IfOk result (λ answer. answer
        ≡ expansion_between name.now zone.now (bounds_in rule.Required start.now end.now)) }
    ensures status { IfOk result (λ answer. IsAnswerStatus answer.status) }
{
    match bounds_in(BoundRule::Required, start, end) {
        Ok(bounds) => {
            let (from, until) = (begin_of(bounds.start), finish_of(bounds.end));
            Ok(document(expansion(alloc, name, zone, from, until)?))
        }
        Err(problem) => refusal(alloc, problem),
    }
}

/// The JSON document of a zone's observances from one moment to another.
fn expansion(
    alloc: Global,
    name: &Bytes,
    zone: &Zone,
    from: Moment,
    until: Moment,
) -> Result<Bytes, NoMemory>
    requires name { IsPlain name.now }
    requires sound { IsSoundFile zone.now }
    requires range { IsRange from.seconds until.seconds }
    ensures { IfOk result (λ text. text
        ≡ expansion name.now zone.now from.seconds until.seconds) }
{
    let mut text = ExpansionWriter::begin(Bytes::new(alloc), until)?;
    put_observed(alloc, &mut text, zone, from, until)?;
    text.end(name.as_slice(), from)
}
