ghost use Rattle.std.specs.Prelude.{◌≡◌, IfOk};
ghost use Rattle.std.specs.List.{list_any};
ghost use Rattle.http_answer.specs.Replies.{IsAnswerStatus};
ghost use Rattle.zone_meaning.specs.ZoneHistories.{ForEachZoneHistory, HasZoneHistory};
ghost use Rattle.find_pattern.specs.Matching.{matches as pattern_matches};
ghost use Rattle.find_pattern.specs.Patterns.{pattern as pattern_in};
ghost use Rattle.actions.specs.Finding.{find_answer, found_by};

use crate::choice::Choice;
use crate::documents::{document, refusal};
use crate::listing::list_body;
use catalogue::{Catalogue, Entry};
use find_pattern::{BadPattern, Pattern, matches, read};
use http_answer::Answer;
use json_forms::Problem;
use std::alloc::Global;
use target::Param;
use td_base::{Bytes, NoMemory};
use zone_meaning::Zone;

/// Answers the action `find` (RFC 7808, section 5.5).
#[tactic(auto, unfolding(crate::specs::Finding::find_answer))]
pub fn find(alloc: Global, catalogue: &Catalogue<Zone>, pattern: &Param) -> Result<Answer, NoMemory>
    requires { HasZoneHistory catalogue.now }
    ensures answer { ForEachZoneHistory catalogue.now (λ H.
        IfOk result (λ answer. answer ≡ find_answer H pattern.now)) }
    ensures status { IfOk result (λ answer. IsAnswerStatus answer.status) }
{
    match pattern {
        Param::Once(text) => find_text(alloc, catalogue, text),
        Param::Absent => refusal(alloc, Problem::InvalidPattern),
        Param::Repeated => refusal(alloc, Problem::InvalidPattern),
    }
}

/// Answers for the text of a pattern.
fn find_text(alloc: Global, catalogue: &Catalogue<Zone>, text: &Bytes) -> Result<Answer, NoMemory>
    requires { HasZoneHistory catalogue.now }
    ensures answer { ForEachZoneHistory catalogue.now (λ H.
        IfOk result (λ answer. answer ≡ found_by H (pattern_in text.now))) }
    ensures status { IfOk result (λ answer. IsAnswerStatus answer.status) }
{
    match read(alloc, text.as_slice()) {
        Ok(pattern) => Ok(document(list_body(alloc, catalogue, &pattern)?)),
        Err(BadPattern::BadPattern(_)) => refusal(alloc, Problem::InvalidPattern),
        Err(BadPattern::NoMemory) => Err(NoMemory),
    }
}

impl Choice for Pattern {
    ghost use Rattle.actions.specs.Finding.{is_found};

    ghost shows = { λ pattern entry. is_found pattern entry };

    fn takes(&self, entry: &Entry<Zone>) -> bool {
        let content = &entry.content;
        matches(self, content.tzid.as_slice()) || has_match(self, content.aliases.as_slice())
    }
}

/// Whether one of the aliases matches.
fn has_match(pattern: &Pattern, aliases: &[Bytes]) -> bool
    ensures { result ≡ list_any (pattern_matches pattern.now) aliases.now }
{
    aliases
        .iter()
        .any(|alias| matches(pattern, alias.as_slice()))
}
