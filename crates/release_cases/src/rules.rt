//! The rules of a row, and what they decide about a release.
ghost use Rattle.std.specs.Prelude.{map};
ghost use Rattle.admission.specs.Rules.{KeepsAll};

use admission::{Changed, Chosen, Delta, Kept, RuleKind, Rules};
use case_lines::{Answer, CaseFault, Row, debug_text, signed_number};
use folder_rows::strange;
use std::alloc::Global;
use td_base::{Bytes, Items};
use td_civil::Moment;

/// The most rules of a row.
const MOST_RULES: usize = 8;

/// Parses a rule: `most=N` or `from=SECONDS`.
fn rule(word: &[u8]) -> Result<Chosen, CaseFault> {
    if let Some(number) = word.strip_prefix(b"most=") {
        let number = signed_number(number)?;
        return Ok(Chosen {
            kind: RuleKind::MaxChanged,
            number,
        });
    }
    let Some(number) = word.strip_prefix(b"from=") else {
        return strange();
    };
    let number = signed_number(number)?;
    Ok(Chosen {
        kind: RuleKind::NoPastChange,
        number,
    })
}

/// Parses rules separated by commas. An empty word has none.
#[tactic(auto, using(admission::proofs::lemmas::Keeping::all_kept))]
pub fn rules<'k>(alloc: Global, kept: &'k [Kept], word: &[u8]) -> Result<Rules<'k>, CaseFault>
    requires { KeepsAll (map (λ k. k.kind) kept.now) }
{
    if word.is_empty() {
        return Ok(Rules::none(alloc));
    }
    let mut chosen = Vec::new(alloc);
    add_rules(word, &mut chosen)?;
    if chosen.len() > MOST_RULES {
        return strange();
    }
    Ok(Rules::new(kept, chosen))
}

fn add_rules(word: &[u8], chosen: &mut Vec<Chosen>) -> Result<(), CaseFault> {
    for text in word.split(|byte| *byte == b',') {
        chosen.push(rule(text)?)?;
    }
    Ok(())
}

/// `asked RULES MOMENTS`: what rules decide about a release whose changes begin at these moments,
/// in seconds, or never.
pub fn decision(alloc: Global, row: &Row, kept: &[Kept]) -> Answer
    requires { KeepsAll (map (λ k. k.kind) kept.now) }
{
    let (rules, moments) = (row.word(0)?, row.word(1)?);
    let delta = delta(alloc, moments)?;
    let rules = self::rules(alloc, kept, rules)?;
    debug_text(alloc, &rules.ask(&delta))
}

/// A release with changes that begin at the moments of a word.
fn delta(alloc: Global, word: &[u8]) -> Result<Delta, CaseFault> {
    let mut changed = Items::new(alloc);
    add_changes(alloc, word, &mut changed)?;
    Ok(Delta { changed })
}

fn add_changes(alloc: Global, word: &[u8], changed: &mut Items<Changed>) -> Result<(), CaseFault> {
    if word.is_empty() {
        return Ok(());
    }
    for text in word.split(|byte| *byte == b',') {
        let first = moment(text)?;
        changed.push(change_at(alloc, first))?;
    }
    Ok(())
}

/// A zone without an identifier that changes at a moment.
fn change_at(alloc: Global, first: Option<Moment>) -> Changed {
    let tzid = Bytes::new(alloc);
    Changed { tzid, first }
}

/// Parses a moment. `never` is none.
fn moment(word: &[u8]) -> Result<Option<Moment>, CaseFault> {
    if word == b"never".as_slice() {
        return Ok(None);
    }
    let seconds = signed_number(word)?;
    Ok(Some(Moment { seconds }))
}
