//! The invariant of what is shown, and the meaning of each step on it.
ghost use Rattle.publication.specs.ShownRule.{ShownHolds, OpensView, Publishes, Enters};
ghost use Rattle.publication.specs.ShownRule.{spent, told, taken_over};

use crate::edition::Edition;
use crate::shown::{Sets, Shown};
use crate::view::View;
use atomic_table::{Join, Split};
use crossbeam_utils::rule::{Outcome, Protocol};
use left_right::reader::Reader;
use left_right::writer::Writer;
use std::marker::PhantomData;
use td_base::Value;

/// The invariant of what is shown to the desks.
pub struct ShownRule<V> {
    values: PhantomData<V>,
}

impl<V: Value, T: Sets<V>> Protocol<T, View<V>> for ShownRule<V> {
    ghost holds = { ShownHolds T.content (λ t. t.list) (λ t. t.home) };

    ghost first = { spent };
}

/// The step that shows the first value, when the pair of copies is made.
pub struct Opening;

impl<V: Value, T: Sets<V>> Outcome<T, View<V>> for Opening {
    ghost then = { OpensView T.content (λ t. t.list) (λ t. t.home) };
}

/// The step that shows the next value; or, at the end, the last one again.
pub struct Publishing;

impl<V: Value, T: Sets<V>> Outcome<T, View<V>> for Publishing {
    ghost then = { Publishes T.content (λ t. t.list) (λ t. t.home) };
}

/// The step of a desk that enters.
pub struct Entering;

impl<V: Value, T: Sets<V>> Outcome<T, View<V>> for Entering {
    ghost then = { Enters T.content (λ t. t.list) (λ t. t.home) };
}

/// The step in which the publisher hands its history to a new reader.
pub struct Telling;

impl<V> Split<View<V>> for Telling {
    ghost left = { λ v. v };

    ghost right = { told };
}

/// The step in which a new reader takes that history over.
pub struct TakingOver;

impl<V> Join<View<V>> for TakingOver {
    ghost both = { taken_over };

    ghost spent = { spent };
}

/// The side of a desk, over copies of the type `T`.
pub type ReaderOf<V, T> = Reader<T, View<V>, ShownRule<V>>;

/// The side of a desk.
pub type DeskReader<V> = ReaderOf<V, Shown<V>>;

/// The side of the publisher. The copies have a type parameter, since a struct that is generic in
/// the value cannot hold a writer of the copies of that value.
pub type StageOf<V, T> = Writer<T, Edition<V>, View<V>, ShownRule<V>>;

/// The side of the publisher.
pub type ShownStage<V> = StageOf<V, Shown<V>>;
