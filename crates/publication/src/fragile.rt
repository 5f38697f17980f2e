//! Copies that refuse a call, for tests. Those of `Shown` do so only when out of memory; these show
//! how the publisher behaves then.
ghost use Rattle.std.specs.Prelude.{◌≡◌, [], ◌∷◌, Some, None, IfOk, refl, option_map};
ghost use Rattle.left_right.specs.Sides.{view};
ghost use Rattle.publication.specs.declared.view.SeatRole.TheVariants.{Desk as AtDesk};
ghost use Rattle.publication.specs.Histories.{values};
ghost use Rattle.publication.specs.ShownRule.{home_of, told_of};

use crate::edition::Edition;
use crate::making::begin_history;
use crate::publisher::PublisherOf;
use crate::rule::{Entering, ReaderOf};
use crate::shown::Sets;
use crate::stage::{new_reader, open};
use crate::view::View;
use left_right::Absorb;
use std::alloc::{AllocError, Global};
use std::sync::Wait;
use td_base::{NoMemory, Value};

/// One copy, which refuses one call.
#[derive(Drop)]
pub struct Fragile<V: Value> {
    edition: Option<Edition<V>>,
    // How many calls were made.
    calls: u32,
    // The number of the call that is refused, counted from 1; 0 if none is.
    refused: u32,
}

impl<V: Value> Absorb<Edition<V>> for Fragile<V> {
    type State = Option<View<V>>;

    ghost state = { λ x.
        option_map (λ i. told_of (values i.prefix.log) (home_of i.prefix.book)) x.edition };

    ghost applied = { λ _ op. Some (told_of (values op.prefix.log) (home_of op.prefix.book)) };

    fn absorb_first(
        &mut self,
        operation: &Edition<V>,
        _other: &Fragile<V>,
    ) -> Result<(), AllocError> {
        self.calls = self.calls.wrapping_add(1);
        if self.calls == self.refused {
            return Err(AllocError);
        }
        self.edition = Some(operation.again()?);
        Ok(())
    }
}

impl<V: Value> Sets<V> for Fragile<V> {
    ghost content = { λ x.
        option_map (λ i. told_of (values i.prefix.log) (home_of i.prefix.book)) x.edition };

    ghost of_state = { λ s. s };

    ghost content_is = { λ x. refl };

    ghost sets = { λ s op. refl };

    fn is_vacant(&self) -> bool {
        self.edition.is_none()
    }
}

/// A publisher whose two copies each refuse one call.
pub type FragilePublisher<V> = PublisherOf<V, Fragile<V>>;

type FragileReader<V> = ReaderOf<V, Fragile<V>>;

/// A reader of what such a publisher shows.
#[derive(Drop)]
pub struct Onlooker<V: Value> {
    reader: FragileReader<V>,
    ghost seated: { (view reader.place).role ≡ AtDesk },
}

impl<V: Value> Onlooker<V> {
    /// The number of the value that a desk would find. `None` if its enter is refused.
    pub fn look(self) -> (Onlooker<V>, Option<u32>) {
        let Onlooker { reader } = self;
        let (reader, number) = found(reader);
        (Onlooker { reader }, number)
    }
}

fn found<V: Value>(reader: FragileReader<V>) -> (FragileReader<V>, Option<u32>)
    requires { (view reader.place).role ≡ AtDesk }
    ensures { (view result.0.place).role ≡ AtDesk }
{
    match reader.enter_as::<Entering>() {
        Err(reader) => (reader, None),
        Ok(reading) => {
            let number = reading.get().edition.as_ref().map(|edition| edition.number);
            (reading.leave(), number)
        }
    }
}

fn vacant<V: Value>(refused: u32) -> Fragile<V>
    ensures { result.edition ≡ None }
{
    Fragile {
        edition: None,
        calls: 0,
        refused,
    }
}

/// Publishes a first value over two copies. `refused` has the number of the call that each copy
/// refuses, counted from 1, or 0 for none.
pub fn make_fragile<V: Value, R: Wait>(
    rt: &R,
    alloc: Global,
    first: V,
    refused: (u32, u32),
) -> Result<(FragilePublisher<V>, Onlooker<V>), NoMemory>
    requires { V.stands first (V.last first ∷ []) }
    ensures { IfOk result (λ p. p.0.list ≡ first ∷ []) }
{
    let (history, last, edition) = begin_history(alloc, first)?;
    let copies = (vacant(refused.0), vacant(refused.1));
    let mut stage = open(rt, alloc, copies, edition, 1)?;
    let Ok(reader) = new_reader(&mut stage) else {
        drop(stage.take(rt));
        return Err(NoMemory);
    };
    let publisher = PublisherOf {
        stage: Some(stage),
        history,
        last,
        alloc,
        stuck: false,
    };
    Ok((publisher, Onlooker { reader }))
}
