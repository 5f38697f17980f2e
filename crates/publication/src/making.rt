ghost use Rattle.std.specs.Prelude.{◌≡◌, ◌<◌, [], ◌∷◌, length, false, IfOk, All};
ghost use Rattle.left_right.specs.Sides.{view};
ghost use Rattle.publication.specs.declared.view.SeatRole.TheVariants.{Publisher as AtStage};
ghost use Rattle.publication.specs.Histories.{values, ended_in};
ghost use Rattle.publication.specs.ShownRule.{home_of};
ghost use Rattle.publication.specs.Views.{IsNewDesk};

use crate::desk::{Desk, desk_over};
use crate::edition::Edition;
use crate::history::HistoryWriter;
use crate::publisher::{Publisher, PublisherOf};
use crate::rule::ShownStage;
use crate::shown::Shown;
use crate::stage::{new_reader, open};
use std::alloc::Global;
use std::sync::{Arc, Wait};
use td_base::{NoMemory, Value};

// Makes one desk, which holds the shown edition.
fn desk_of<V: Value>(stage: &mut ShownStage<V>, edition: &Edition<V>) -> Result<Desk<V>, NoMemory>
    requires role { (view stage.old.desk.place).role ≡ AtStage }
    requires home { (view stage.old.desk.place).home ≡ home_of edition.now.prefix.book }
    requires list { (view stage.old.desk.place).list ≡ values edition.now.prefix.log }
    ensures stage { view stage.new.desk.place ≡ view stage.old.desk.place }
    ensures desk { IfOk result (λ d. IsNewDesk edition.now.prefix.book
        (values edition.now.prefix.log) (ended_in edition.now.prefix.log) d) }
{
    let Ok(edition) = edition.again() else {
        return Err(NoMemory);
    };
    let reader = new_reader(stage)?;
    Ok(desk_over(reader, edition))
}

// Makes `desks` desks.
fn desks_of<V: Value>(
    stage: &mut ShownStage<V>,
    alloc: Global,
    edition: &Edition<V>,
    desks: u32,
) -> Result<Vec<Desk<V>>, NoMemory>
    requires role { (view stage.old.desk.place).role ≡ AtStage }
    requires home { (view stage.old.desk.place).home ≡ home_of edition.now.prefix.book }
    requires list { (view stage.old.desk.place).list ≡ values edition.now.prefix.log }
    ensures stage { view stage.new.desk.place ≡ view stage.old.desk.place }
    ensures number { IfOk result (λ v. length v.items ≡ desks) }
    ensures each { IfOk result (λ v. All (λ d. IsNewDesk edition.now.prefix.book
        (values edition.now.prefix.log) (ended_in edition.now.prefix.log) d) v.items) }
{
    let mut made = Vec::new(alloc);
    for _ in 0..desks {
        let desk = desk_of(stage, edition)?;
        let Ok(()) = made.push(desk) else {
            return Err(NoMemory);
        };
    }
    Ok(made)
}

/// A history with a first value, and two editions of it.
pub(crate) fn begin_history<V: Value>(
    alloc: Global,
    first: V,
) -> Result<(HistoryWriter<V>, Edition<V>, Edition<V>), NoMemory>
    requires { V.stands first (V.last first ∷ []) }
    ensures list { IfOk result (λ p. values p.0.prefix.log ≡ first ∷ []) }
    ensures going { IfOk result (λ p. ended_in p.0.prefix.log ≡ false) }
    ensures editions { IfOk result (λ p. (p.1.prefix ≡ p.0.prefix) × (p.2.prefix ≡ p.0.prefix)) }
{
    let number = first.count();
    let Ok(value) = Arc::new(alloc, first) else {
        return Err(NoMemory);
    };
    let Ok(kept) = Arc::try_clone(&value) else {
        return Err(NoMemory);
    };
    let added: &V = &value;
    let mut history = HistoryWriter::new();
    if !history.add(added) {
        return Err(NoMemory);
    }
    let last = Edition::of_last(kept, &history.prefix, number, false);
    let edition = Edition::of_last(value, &history.prefix, number, false);
    Ok((history, last, edition))
}

/// Publishes a first value, and makes `desks` desks that hold it.
pub fn make<V: Value, R: Wait>(
    rt: &R,
    alloc: Global,
    first: V,
    desks: u32,
) -> Result<(Publisher<V>, Vec<Desk<V>>), NoMemory>
    requires desks { 0 < desks }
    requires stands { V.stands first (V.last first ∷ []) }
    ensures list { IfOk result (λ p. (p.0.list ≡ first ∷ []) × (p.0.stuck ≡ false)) }
    ensures number { IfOk result (λ p. length p.1.items ≡ desks) }
    ensures each { IfOk result (λ p. All (IsNewDesk p.0.pair (first ∷ []) false) p.1.items) }
{
    let (history, last, edition) = begin_history(alloc, first)?;
    let copies = (Shown { edition: None }, Shown { edition: None });
    let mut stage = open(rt, alloc, copies, edition, desks)?;
    let Ok(made) = desks_of(&mut stage, alloc, &last, desks) else {
        drop(stage.take(rt));
        return Err(NoMemory);
    };
    let publisher = PublisherOf {
        stage: Some(stage),
        history,
        last,
        alloc,
        stuck: false,
    };
    Ok((publisher, made))
}
