ghost use Rattle.std.specs.Prelude.{◌≡◌, ◌⊎◌, [], ◌∷◌, ◌++◌, map, true, false};
ghost use Rattle.std.specs.Prelude.{Some, None, IfOk, IsErr, OnErr};
ghost use Rattle.std.specs.Arc.{arc_value};
ghost use Rattle.std.specs.List.{last_or};
ghost use Rattle.left_right.specs.Sides.{view};
ghost use Rattle.publication.specs.declared.view.SeatRole.TheVariants.{Publisher as AtStage};
ghost use Rattle.publication.specs.Histories.{values, ended_in};
ghost use Rattle.publication.specs.ShownRule.{home_of};
ghost use Rattle.td_base.specs.Views.{one_more};

use crate::edition::Edition;
use crate::history::{HistoryWriter, are_of_one};
use crate::receipt::Receipt;
use crate::rule::StageOf;
use crate::shown::{Sets, Shown};
use crate::stage::{show, show_held};
use std::alloc::Global;
use std::marker::Model;
use std::sync::{Arc, Wait};
use td_base::{NoMemory, Value};

/// The single writer: appends values to the history, and shows the last of them.
pub type Publisher<V> = PublisherOf<V, Shown<V>>;

/// A publisher after its end. Its receipts cover the whole history.
pub type Ended<V> = EndedOf<V, Shown<V>>;

/// A publisher over copies of the type `T`. It is not `Drop`: `end` or `close` ends it on each
/// path.
pub struct PublisherOf<V: Value, T: Sets<V>> {
    // `None` only while it publishes.
    pub(crate) stage: Option<StageOf<V, T>>,
    pub(crate) history: HistoryWriter<V>,
    pub(crate) last: Edition<V>,
    pub(crate) alloc: Global,
    // The history has a value that was not shown. Every later publish is refused.
    pub(crate) stuck: bool,
}

impl<V: Value, T: Sets<V>> Model for PublisherOf<V, T> {
    ghost use Rattle.std.specs.Prelude.{◌≡◌, false, IsSomeAnd};
    ghost use Rattle.publication.specs.declared.view.SeatRole.TheVariants.{Publisher as AtStage};
    ghost use Rattle.publication.specs.Histories.{values, ended_in};
    ghost use Rattle.publication.specs.ShownRule.{home_of};
    ghost use Rattle.publication.specs.Views.{PublishedView};

    ghost Value = { PublishedView V };

    ghost view = { λ p. record {
      pair = p.history.prefix.book;
      list = values p.last.prefix.log;
      stuck = p.stuck;
      tries = p.history.tries;
    } };

    ghost invariant = { λ p.
        IsSomeAnd p.stage (λ w.
        (w.desk.place.me.0.client.role ≡ AtStage)
        × (w.desk.place.me.0.client.home ≡ home_of p.history.prefix.book)
        × (w.desk.place.me.0.client.list ≡ values p.last.prefix.log))
        × (p.last.prefix.book ≡ p.history.prefix.book)
        × (p.stuck ≡ false
        → (p.history.prefix.log ≡ p.last.prefix.log) × (ended_in p.last.prefix.log ≡ false)) };
}

// A value with three owners.
fn share<V: Value>(alloc: Global, value: V) -> Result<(Arc<V>, Arc<V>, Arc<V>), NoMemory>
    ensures { IfOk result (λ a. (arc_value a.0 ≡ value) × (arc_value a.1 ≡ value)
        × (arc_value a.2 ≡ value)) }
{
    let Ok(first) = Arc::new(alloc, value) else {
        return Err(NoMemory);
    };
    let Ok(second) = Arc::try_clone(&first) else {
        return Err(NoMemory);
    };
    let Ok(third) = Arc::try_clone(&first) else {
        return Err(NoMemory);
    };
    Ok((first, second, third))
}

// Adds a value to the history, and makes three editions of it. It does not allocate.
fn add<V: Value>(
    history: &mut HistoryWriter<V>,
    owners: (Arc<V>, Arc<V>, Arc<V>),
) -> Result<(Edition<V>, Edition<V>, Edition<V>), NoMemory>
    requires going { ended_in history.old.prefix.log ≡ false }
    requires stands { V.stands (arc_value owners.0)
        (map V.last (values history.old.prefix.log ++ arc_value owners.0 ∷ [])) }
    requires alike { (arc_value owners.1 ≡ arc_value owners.0)
        × (arc_value owners.2 ≡ arc_value owners.0) }
    ensures book { history.new.prefix.book ≡ history.old.prefix.book }
    ensures tries { history.new.tries ≡ one_more history.old.tries }
    ensures added { IfOk result (λ _. history.new.prefix.log
        ≡ history.old.prefix.log ++ Some (arc_value owners.0) ∷ []) }
    ensures editions { IfOk result (λ e. (e.0.prefix ≡ history.new.prefix)
        × (e.1.prefix ≡ history.new.prefix) × (e.2.prefix ≡ history.new.prefix)) }
{
    let (first, second, third) = owners;
    let value: &V = &first;
    let number = value.count();
    if !history.add(value) {
        return Err(NoMemory);
    }
    Ok((
        Edition::of_last(second, &history.prefix, number, false),
        Edition::of_last(third, &history.prefix, number, false),
        Edition::of_last(first, &history.prefix, number, false),
    ))
}

// Adds the mark of the end to the history, and makes two editions of its last value.
fn mark_end<V: Value>(
    history: HistoryWriter<V>,
    last: Edition<V>,
) -> Result<(Edition<V>, Edition<V>), NoMemory>
    requires going { ended_in last.prefix.log ≡ false }
    requires whole { history.prefix.log ≡ last.prefix.log }
    ensures list { IfOk result (λ e. values e.0.prefix.log ≡ values last.prefix.log) }
    ensures ended { IfOk result (λ e. ended_in e.0.prefix.log ≡ true) }
    ensures book { IfOk result (λ e. e.0.prefix.book ≡ history.prefix.book) }
    ensures alike { IfOk result (λ e. e.1.prefix ≡ e.0.prefix) }
{
    let mut history = history;
    let Ok(told) = Arc::try_clone(&last.value) else {
        return Err(NoMemory);
    };
    if !history.finish() {
        return Err(NoMemory);
    }
    let number = last.number;
    let told = Edition::of_last(told, &history.prefix, number, true);
    let edition = Edition::of_last(last.value, &history.prefix, number, true);
    Ok((told, edition))
}

impl<V: Value, T: Sets<V>> PublisherOf<V, T> {
    /// Appends a value to the history and shows it. It may wait for desks that are entering.
    ///
    /// All memory is allocated before the history grows, except for the operation that shows the
    /// value. If that operation is refused, readers see what they saw before, and the publisher is
    /// stuck: it refuses every later publish. If memory is refused earlier, the publisher is
    /// unchanged.
    pub fn publish<R: Wait>(&mut self, rt: &R, next: V) -> Result<Receipt<V>, NoMemory>
        requires { V.stands next (map V.last (self.old.list ++ next ∷ [])) }
        ensures ok { IfOk result (λ r. (r.pair ≡ self.old.pair)
            × (r.list ≡ self.old.list ++ next ∷ []) × (r.ended ≡ false)
            × (self.new.list ≡ r.list)) }
        ensures err { OnErr result (self.new.list ≡ self.old.list) }
        ensures pair { self.new.pair ≡ self.old.pair }
        ensures free { IfOk result (λ _. self.new.stuck ≡ false) }
        ensures blocked { self.old.stuck ≡ true → IsErr result }
        ensures stuck { OnErr result ((self.new ≡ self.old)
            ⊎ (self.new.tries ≡ one_more self.old.tries)) }
    {
        if self.stuck {
            return Err(NoMemory);
        }
        let Ok(owners) = share(self.alloc, next) else {
            return Err(NoMemory);
        };
        // From here on only the operation allocates. It carries the history with the value in it,
        // so it can be made only after the value was added.
        self.stuck = true;
        let Ok((told, kept, edition)) = add(&mut self.history, owners) else {
            return Err(NoMemory);
        };
        let Ok(()) = show_held(rt, &mut self.stage, edition) else {
            return Err(NoMemory);
        };
        self.stuck = false;
        self.last = kept;
        Ok(Receipt { edition: told })
    }

    /// The value published last.
    pub fn last(&self) -> &V
        ensures last { last_or None self.now.list ≡ Some result.now }
        ensures stands { V.stands result.now (map V.last self.now.list) }
    {
        are_of_one(&self.last.prefix, &self.last.prefix);
        &self.last.value
    }

    /// A receipt of all that was published so far. It does not allocate, and is refused if the last
    /// value has too many owners.
    pub fn receipt(&self) -> Result<Receipt<V>, NoMemory>
        ensures { IfOk result (λ r. (r.list ≡ self.now.list) × (r.pair ≡ self.now.pair)) }
    {
        match self.last.again() {
            Ok(edition) => Ok(Receipt { edition }),
            Err(_) => Err(NoMemory),
        }
    }

    /// Shows the last value again, with the mark of the end. After `Err` the publisher is gone. It
    /// may wait for desks that are entering.
    pub fn end<R: Wait>(self, rt: &R) -> Result<EndedOf<V, T>, NoMemory>
        ensures ended { IfOk result (λ e. (e.pair ≡ self.pair) × (e.list ≡ self.list)) }
        ensures blocked { self.stuck ≡ true → IsErr result }
    {
        let PublisherOf {
            stage,
            history,
            last,
            alloc: _,
            stuck,
        } = self;
        let stage = stage.unwrap();
        if stuck {
            drop(stage.take(rt));
            return Err(NoMemory);
        }
        let Ok((told, edition)) = mark_end(history, last) else {
            drop(stage.take(rt));
            return Err(NoMemory);
        };
        let (stage, shown) = show(rt, stage, edition);
        let Ok(()) = shown else {
            drop(stage.take(rt));
            return Err(NoMemory);
        };
        Ok(EndedOf {
            stage,
            edition: told,
        })
    }

    /// Waits for desks that are entering, and removes the shown value. From then on each enter is
    /// refused.
    pub fn close<R: Wait>(self, rt: &R) {
        let PublisherOf {
            stage,
            history: _,
            last: _,
            alloc: _,
            stuck: _,
        } = self;
        if let Some(stage) = stage {
            drop(stage.take(rt));
        }
    }
}

/// A publisher over copies of the type `T` after its end. It is not `Drop`: `close` ends it.
pub struct EndedOf<V: Value, T: Sets<V>> {
    stage: StageOf<V, T>,
    edition: Edition<V>,
}

impl<V: Value, T: Sets<V>> Model for EndedOf<V, T> {
    ghost use Rattle.std.specs.Prelude.{◌≡◌, true, false};
    ghost use Rattle.publication.specs.Histories.{values, ended_in};
    ghost use Rattle.publication.specs.Views.{PublishedView};

    ghost Value = { PublishedView V };

    ghost view = { λ e. record {
      pair = e.edition.prefix.book;
      list = values e.edition.prefix.log;
      stuck = false;
      tries = 0;
    } };

    ghost invariant = { λ e. ended_in e.edition.prefix.log ≡ true };
}

impl<V: Value, T: Sets<V>> EndedOf<V, T> {
    /// A receipt of the whole history. It is refused if the last value has too many owners.
    pub fn receipt(&mut self) -> Result<Receipt<V>, NoMemory>
        ensures ok { IfOk result (λ r.
            (r.list ≡ self.old.list) × (r.pair ≡ self.old.pair) × (r.ended ≡ true)) }
        ensures kept { self.new ≡ self.old }
    {
        match self.edition.again() {
            Ok(edition) => Ok(Receipt { edition }),
            Err(_) => Err(NoMemory),
        }
    }

    /// Waits for desks that are entering, and removes the shown value. From then on each enter is
    /// refused.
    pub fn close<R: Wait>(self, rt: &R) {
        let EndedOf { stage, edition: _ } = self;
        drop(stage.take(rt));
    }
}
