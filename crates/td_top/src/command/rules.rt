//! The arguments of `serve` that choose rules for releases.
ghost use Rattle.std.specs.Prelude.{◌≡◌, ◌<◌, ◌∷◌, [], ◌++◌, length, map, IfOk, IfSome, false};
ghost use Rattle.std.specs.Prelude.{true};
ghost use Rattle.std.specs.Option.{option_map};
ghost use Rattle.admission.specs.Rules.{KeepsAll};
ghost use Rattle.td_top.specs.Command.{are_once, has_kind, if_once, is_same_kind, next_rule};
ghost use Rattle.td_top.specs.Command.{rule_of_words, rules_then};

use admission::{Chosen, Kept, RuleKind, Rules};
use arrayvec::ArrayVec;
use console::{meant_moment, read_number};
use std::alloc::Global;
use std::marker::Model;
use td_base::{Bytes, NoMemory};

/// How many kinds of rules there are.
const KINDS: usize = 2;

/// The greatest number of changed zones that a rule may be set to allow.
pub(crate) const MOST_CHANGED: u64 = 4_096;

/// The rules that a command names: at most one of each kind, in the order in which they are
/// applied. They are in a fixed array, so that arguments are parsed without memory. Contracts see
/// the list of them.
#[derive(Drop)]
pub struct RuleChoice {
    held: ArrayVec<Named, KINDS>,
}

/// A named rule, or an unused slot of the array.
#[derive(Clone, Copy)]
pub struct Named {
    rule: Chosen,
}

impl Default for Named {
    fn default() -> Named {
        Named {
            rule: Chosen {
                kind: RuleKind::MaxChanged,
                number: 0,
            },
        }
    }
}

impl Model for RuleChoice {
    ghost use Rattle.std.specs.Prelude.{List, map};
    ghost use Rattle.admission.specs.declared.rules.Chosen.{Chosen};

    ghost Value = { List Chosen };

    ghost view = { λ c. map (λ n. n.rule) c.held.items };
}

impl RuleChoice {
    /// No rules.
    fn new() -> RuleChoice
        ensures { result ≡ [] }
    {
        RuleChoice {
            held: ArrayVec::new(),
        }
    }

    /// Whether a rule of this kind is among them.
    fn has(&self, kind: RuleKind) -> bool
        ensures { result ≡ has_kind kind self.now }
    {
        self.held
            .as_slice()
            .iter()
            .any(|named| is_same_kind(named.rule.kind, kind))
    }

    /// Appends a rule of a kind that is not among them.
    fn add(&mut self, rule: Chosen)
        requires once { are_once self.old ≡ true }
        requires new { has_kind rule.kind self.old ≡ false }
        ensures { self.new ≡ self.old ++ rule ∷ [] }
    {
        self.held.push(Named { rule });
    }

    /// The rules in the order in which they are applied, with the tests that the caller keeps.
    pub fn rules<'k>(&self, alloc: Global, kept: &'k [Kept]) -> Result<Rules<'k>, NoMemory>
        requires { KeepsAll (map (λ k. k.kind) kept.now) }
        ensures { IfOk result (λ rules. rules.chosen ≡ self.now) }
    {
        let mut chosen = Vec::new(alloc);
        let held = self.held.as_slice();
        for named in held {
            chosen.push(named.rule)?;
        }
        Ok(Rules::new(kept, chosen))
    }
}

/// Parses the rules at the start of arguments, and returns them with the remaining arguments.
/// `None` if a kind of rule occurs twice.
pub fn read_rules(words: &[Bytes]) -> Option<(RuleChoice, &[Bytes])>
    ensures { option_map (λ p. (p.0, p.1.now)) result ≡ if_once (rules_then words.now) }
{
    let mut choice = RuleChoice::new();
    let mut left = words;
    'rules: while let Some((rule, rest)) = next_rule(left) {
        if choice.has(rule.kind) {
            return None;
        }
        choice.add(rule);
        left = rest;
    }
    Some((choice, left))
}

/// Whether two kinds are equal.
fn is_same_kind(one: RuleKind, two: RuleKind) -> bool
    ensures { result ≡ is_same_kind one two }
{
    one == two
}

/// The rule at the start of arguments, if they start with one, and the remaining arguments.
fn next_rule(words: &[Bytes]) -> Option<(Chosen, &[Bytes])>
    ensures next { option_map (λ p. (p.0, p.1.now)) result ≡ next_rule words.now }
    ensures fewer { IfSome result (λ p. length p.1.now < length words.now) }
{
    match words {
        [name, value, rest @ ..] => match read_rule(name.as_slice(), value.as_slice()) {
            Some(rule) => Some((rule, rest)),
            None => None,
        },
        _ => None,
    }
}

/// The rule with this name and this argument.
fn read_rule(name: &[u8], value: &[u8]) -> Option<Chosen>
    ensures { result ≡ rule_of_words name.now value.now }
{
    if name == b"--max-changed".as_slice() {
        let most = read_number(value, 0, MOST_CHANGED)?;
        Some(Chosen {
            kind: RuleKind::MaxChanged,
            number: most as i64,
        })
    } else if name == b"--no-past-change".as_slice() {
        let moment = meant_moment(value)?;
        Some(Chosen {
            kind: RuleKind::NoPastChange,
            number: moment.seconds,
        })
    } else {
        None
    }
}
