//! How the publisher changes what is shown.
ghost use Rattle.std.specs.Prelude.{◌≡◌, ◌<◌, [], length, None, IfOk, IsSomeAnd, MatchResult};
ghost use Rattle.std.specs.Option.{option_map_or};
ghost use mathlib.Core.List.{IsPrefix};
ghost use Rattle.left_right.specs.Sides.{view};
ghost use Rattle.publication.specs.declared.view.SeatRole.TheVariants.{Publisher as AtStage};
ghost use Rattle.publication.specs.Histories.{values};
ghost use Rattle.publication.specs.ShownRule.{home_of, opened};
ghost use Rattle.publication.specs.Entering.{IsNewReader};

use crate::edition::Edition;
use crate::rule::{Opening, Publishing, ReaderOf, StageOf, TakingOver, Telling};
use crate::shown::Sets;
use std::alloc::{AllocError, Global};
use std::mem::replace;
use std::sync::Wait;
use td_base::{NoMemory, Value};

/// Shows an edition. On `Err` readers keep seeing the earlier edition. The new one stays pending
/// and is never shown, since any later edition replaces it.
pub(crate) fn show<V: Value, T: Sets<V>, R: Wait>(
    rt: &R,
    stage: StageOf<V, T>,
    edition: Edition<V>,
) -> (StageOf<V, T>, Result<(), AllocError>)
    requires role { (view stage.desk.place).role ≡ AtStage }
    requires longer { IsPrefix (view stage.desk.place).list (values edition.prefix.log) }
    requires home { home_of edition.prefix.book ≡ (view stage.desk.place).home }
    ensures list { MatchResult result.1
        (λ _. (view result.0.desk.place).list ≡ values edition.prefix.log)
        (λ _. (view result.0.desk.place).list ≡ (view stage.desk.place).list) }
    ensures rest { ((view result.0.desk.place).role ≡ AtStage)
        × ((view result.0.desk.place).home ≡ (view stage.desk.place).home) }
{
    let mut stage = stage;
    let Ok(()) = stage.append(edition) else {
        return (stage, Err(AllocError));
    };
    let (stage, result) = stage.publish_as::<Publishing, R>(rt);
    let Ok(()) = result else {
        return (stage, Err(AllocError));
    };
    (stage, Ok(()))
}

/// Shows an edition by the stage that is held here, and holds the stage again.
pub(crate) fn show_held<V: Value, T: Sets<V>, R: Wait>(
    rt: &R,
    held: &mut Option<StageOf<V, T>>,
    edition: Edition<V>,
) -> Result<(), AllocError>
    requires { IsSomeAnd held.old (λ w. (w.desk.place.me.0.client.role ≡ AtStage)
        × (w.desk.place.me.0.client.home ≡ home_of edition.prefix.book)
        × IsPrefix w.desk.place.me.0.client.list (values edition.prefix.log)) }
    ensures { IsSomeAnd held.new (λ w. (w.desk.place.me.0.client.role ≡ AtStage)
        × (w.desk.place.me.0.client.home ≡ home_of edition.prefix.book)
        × MatchResult result
        (λ _. w.desk.place.me.0.client.list ≡ values edition.prefix.log)
        (λ _. w.desk.place.me.0.client.list
        ≡ option_map_or (λ o. o.desk.place.me.0.client.list) held.old [])) }
{
    let (stage, shown) = show(rt, held.take().unwrap(), edition);
    match replace(held, Some(stage)) {
        None => {}
        Some(old) => drop(old.take(rt)),
    }
    shown
}

/// Makes the two copies, and shows a first edition. Nothing was shown before, so no reader has seen
/// more.
pub(crate) fn open<V: Value, T: Sets<V>, R: Wait>(
    rt: &R,
    alloc: Global,
    copies: (T, T),
    edition: Edition<V>,
    desks: u32,
) -> Result<StageOf<V, T>, NoMemory>
    requires desks { 0 < desks }
    requires some_value { 0 < length (values edition.prefix.log) }
    requires vacant { T.content copies.0 ≡ None }
    requires alike { T.state copies.0 ≡ T.state copies.1 }
    ensures { IfOk result (λ s.
        view s.desk.place ≡ opened (home_of edition.prefix.book) (values edition.prefix.log)) }
{
    let (first, second) = copies;
    let Ok(stage) = StageOf::<V, T>::new(alloc, first, second, desks as usize) else {
        return Err(NoMemory);
    };
    let mut stage = stage;
    let Ok(()) = stage.append(edition) else {
        drop(stage.take(rt));
        return Err(NoMemory);
    };
    let (stage, result) = stage.publish_as::<Opening, R>(rt);
    let Ok(()) = result else {
        drop(stage.take(rt));
        return Err(NoMemory);
    };
    Ok(stage)
}

/// A new reader for a desk, which has learned the published history.
pub(crate) fn new_reader<V: Value, T: Sets<V>>(
    stage: &mut StageOf<V, T>,
) -> Result<ReaderOf<V, T>, NoMemory>
    requires { (view stage.old.desk.place).role ≡ AtStage }
    ensures stage { view stage.new.desk.place ≡ view stage.old.desk.place }
    ensures reader { IfOk result (λ r. IsNewReader (view stage.old.desk.place) (view r.place)) }
{
    let Ok(mut reader) = stage.factory().reader() else {
        return Err(NoMemory);
    };
    reader.learn::<TakingOver>(stage.tell::<Telling>());
    Ok(reader)
}
