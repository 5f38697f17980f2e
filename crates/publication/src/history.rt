//! The history: one list of all published values that only grows, with a mark at its end. It exists
//! only in the proofs; at run time there is one word with the count.
ghost use Rattle.std.specs.Prelude.{◌≡◌, ◌++◌, ◌∷◌, [], length, map, MatchBool, Some, None, IfSome};
ghost use Rattle.std.specs.Prelude.{false};
ghost use mathlib.Core.List.{IsPrefix};
ghost use Rattle.publication.specs.Histories.{AreOfOne, values, ended_in};
ghost use Rattle.publication.specs.HistoryRule.{head_of};
ghost use Rattle.td_base.specs.Views.{one_more};

use logbook::{Gain, Offer, Plain, Play, Rule, Seen, Start, Word};
use std::marker::PhantomData;
use td_base::Value;

/// The invariant of the history.
pub struct HistoryRule<V> {
    values: PhantomData<V>,
}

impl<V: Value> Rule<Option<V>, u64> for HistoryRule<V> {
    ghost use Rattle.std.specs.Prelude.{[]};
    ghost use base.Fml.{ftrue};
    ghost use Rattle.publication.specs.HistoryRule.{HistoryHolds};

    ghost holds = { λ cells log. HistoryHolds V.last V.stands cells log };

    ghost first = { [] };

    ghost hinted = { λ n log. Unit {0} };

    ghost shows = { λ log. [] };

    ghost keeps = { λ names log. ftrue };

    ghost moves = { λ ask before after answer. Unit {0} };
}

/// The gain of a step that exchanges nothing with other threads.
pub struct Nothing;

impl<V> Gain<Option<V>, u64> for Nothing {
    ghost use base.Fml.{ftrue};

    ghost after = { λ names about answer. ftrue };
}

/// The step that adds a value.
pub struct Adding;

impl<V> Play<Option<V>, u64> for Adding {
    ghost use Rattle.publication.specs.HistoryRule.{Adds};

    ghost then = { Adds };
}

impl<V> Plain<V, Option<V>, u64> for Adding {
    ghost use Rattle.std.specs.Prelude.{Some, None};

    ghost ask = { λ x. Some x };

    ghost state = { λ x. None };
}

/// The step that adds the mark of the end.
pub struct EndMark;

impl<V> Plain<(), Option<V>, u64> for EndMark {
    ghost use Rattle.std.specs.Prelude.{None};

    ghost ask = { λ x. None };

    ghost state = { λ x. None };
}

/// A prefix of the history that was seen.
pub type Prefix<V> = Seen<Option<V>, u64, HistoryRule<V>>;

/// The history, as its single writer holds it.
#[derive(Drop)]
pub struct HistoryWriter<V: Value> {
    head: Word<Option<V>, u64, HistoryRule<V>>,
    pub prefix: Prefix<V>,
    /// How many times a value or the mark was to be added, saturating.
    pub tries: u64,
    count: u64,
    ghost counted: { count ≡ length prefix.log },
    ghost head_is: { head ≡ head_of prefix.book },
}

impl<V: Value> HistoryWriter<V> {
    /// An empty history.
    pub fn new() -> HistoryWriter<V>
        ensures { result.prefix.log ≡ [] }
    {
        let (prefix, mut first, _second) = Seen::open(Start::alone(), 0, 0);
        HistoryWriter {
            head: Word::tracked(0, &mut first),
            prefix,
            tries: 0,
            count: 0,
        }
    }

    /// Adds a value, and returns whether it was added.
    pub fn add(&mut self, value: &V) -> bool
        requires going { ended_in self.old.prefix.log ≡ false }
        requires stands { V.stands value.now
            (map V.last (values self.old.prefix.log ++ value.now ∷ [])) }
        ensures book { self.new.prefix.book ≡ self.old.prefix.book }
        ensures tries { self.new.tries ≡ one_more self.old.tries }
        ensures added { MatchBool result
            (self.new.prefix.log ≡ self.old.prefix.log ++ Some value.now ∷ [])
            (IsPrefix self.old.prefix.log self.new.prefix.log) }
    {
        self.append::<V, Adding>(value)
    }

    /// Adds the mark of the end, and returns whether it was added.
    pub fn finish(&mut self) -> bool
        requires going { ended_in self.old.prefix.log ≡ false }
        ensures book { self.new.prefix.book ≡ self.old.prefix.book }
        ensures tries { self.new.tries ≡ one_more self.old.tries }
        ensures added { MatchBool result
            (self.new.prefix.log ≡ self.old.prefix.log ++ None ∷ [])
            (IsPrefix self.old.prefix.log self.new.prefix.log) }
    {
        self.append::<(), EndMark>(&())
    }

    /// Adds a value or the mark of the end, and returns whether it was added.
    fn append<X, M: Plain<X, Option<V>, u64>>(&mut self, about: &X) -> bool
        requires going { ended_in self.old.prefix.log ≡ false }
        requires waits { M.state about.now ≡ None }
        requires stands { IfSome (M.ask about.now) (λ value. V.stands value
            (map V.last (values self.old.prefix.log ++ value ∷ []))) }
        ensures book { self.new.prefix.book ≡ self.old.prefix.book }
        ensures tries { self.new.tries ≡ one_more self.old.tries }
        ensures added { MatchBool result
            (self.new.prefix.log ≡ self.old.prefix.log ++ M.ask about.now ∷ [])
            (IsPrefix self.old.prefix.log self.new.prefix.log) }
    {
        self.tries = self.tries.saturating_add(1);
        let Some(next) = self.count.checked_add(1) else {
            return false;
        };
        let mut offer: Offer<Option<V>, u64, HistoryRule<V>, Nothing> = self
            .prefix
            .plain::<Nothing, X, M>(about);
        let mut pen = self.prefix.no_pen();
        let count = self.count;
        let found = self
            .head
            .compare_exchange::<Adding, Nothing>(
                count,
                next,
                &mut self.prefix,
                &mut offer,
                &mut pen,
            );
        self.count = if found == count { next } else { found };
        found == count
    }
}

/// Two prefixes of one history are both prefixes of one list. In that list each value represents
/// the values up to it, and nothing follows the mark.
pub fn are_of_one<V: Value>(one: &Prefix<V>, other: &Prefix<V>)
    requires { other.now.book ≡ one.now.book }
    ensures { AreOfOne V.last V.stands one.now.log other.now.log }
{
    let mut both = one.again();
    both.learn(other);
}
