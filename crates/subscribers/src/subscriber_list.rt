ghost use Rattle.std.specs.Prelude.{◌≡◌, ◌↔◌, ◌<◌, ◌≤◌, [], ◌∷◌, ◌++◌, length, map, IsTrue, None};
ghost use Rattle.std.specs.Prelude.{IfOk, IsErrOf, OnErr, OnOk};
ghost use Rattle.std.specs.Option.{option_map};
ghost use Rattle.subscribers.specs.News.{numbered_from};
ghost use Rattle.subscribers.specs.Views.{IsIdle, changed_numbered, committed, emptied_beside};
ghost use Rattle.subscribers.specs.Views.{given_up, newcomer, prepared};
ghost use Rattle.subscribers.specs.Wishes.{WantsAll};

use crate::subscriber::Subscriber;
use crate::{Notices, SubscribeFault, Want, Wish};
use admission::Delta;
use std::alloc::Global;
use std::marker::Model;
use td_base::NoMemory;

/// The most subscribers at one time.
pub const MOST_SUBSCRIBERS: usize = 64;

/// Subscribers, in the order in which they subscribed. Contracts see each with the notice that is
/// prepared for it.
#[derive(Drop)]
pub struct Subscribers {
    alloc: Global,
    list: Vec<Subscriber>,
}

impl Model for Subscribers {
    ghost use Rattle.std.specs.Prelude.{List};
    ghost use Rattle.subscribers.specs.Views.{PreparedView};

    ghost Value = { List PreparedView };

    ghost view = { λ s. s.list.items };
}

impl Subscribers {
    /// No subscribers. Later growth uses `alloc`.
    pub fn new(alloc: Global) -> Subscribers
        ensures { result ≡ [] }
    {
        Subscribers {
            alloc,
            list: Vec::new(alloc),
        }
    }

    /// Whether there are no subscribers.
    pub fn is_empty(&self) -> bool
        ensures { IsTrue result ↔ (self.now ≡ []) }
    {
        self.list.is_empty()
    }

    /// Adds a subscriber that has seen the history up to a place, and returns its number, counted
    /// from 1. It is refused as full exactly if [`MOST_SUBSCRIBERS`] exist already.
    pub fn subscribe(&mut self, wish: Wish, place: u32) -> Result<u32, SubscribeFault>
        ensures ok { OnOk result (self.new
            ≡ self.old ++ (record { subscriber = newcomer wish place; next = None }) ∷ []) }
        ensures number { IfOk result (λ number. number ≡ length self.new) }
        ensures full { IsErrOf result SubscribeFault.WatchFull
            ↔ (MOST_SUBSCRIBERS ≤ length self.old) }
        ensures err { OnErr result (self.new ≡ self.old) }
    {
        if self.list.len() >= MOST_SUBSCRIBERS {
            return Err(SubscribeFault::WatchFull);
        }
        match self.list.push(Subscriber::new(self.alloc, wish, place)) {
            Ok(()) => Ok(self.list.len() as u32),
            Err(_) => Err(SubscribeFault::NoMemory),
        }
    }

    /// Prepares the notice of the release at a place, and room for it, for each subscriber whose
    /// wish takes a zone that this release changes. If memory runs out, nothing is prepared.
    pub fn prepare(&mut self, wants: &[Want], place: u32, delta: &Delta) -> Result<(), NoMemory>
        requires wanted { WantsAll (map (λ w. w.kind) wants.now) }
        requires idle { IsIdle self.old }
        ensures ok { OnOk result (self.new ≡ map (prepared place delta.now) self.old) }
        ensures err { OnErr result (self.new ≡ self.old) }
    {
        match prepare_each(self.alloc, self.list.as_mut_slice(), wants, place, delta) {
            Ok(()) => Ok(()),
            Err(NoMemory) => {
                self.give_up();
                Err(NoMemory)
            }
        }
    }

    /// Adds the prepared notices to those that are held. It allocates nothing.
    pub fn commit(&mut self)
        ensures { self.new ≡ map committed self.old }
    {
        commit_each(self.list.as_mut_slice());
    }

    /// Drops the prepared notices. It allocates nothing.
    pub fn give_up(&mut self)
        ensures { self.new ≡ map given_up self.old }
    {
        give_up_each(self.list.as_mut_slice());
    }

    /// The notices that the subscriber of a number holds, that is, those not yet cleared. None
    /// exactly if no such subscriber exists.
    pub fn held(&self, number: u32) -> Option<Notices<'_>>
        ensures { option_map (λ held. held.now) result
            ≡ option_map (λ p. p.subscriber.held) (numbered_from self.now number) }
    {
        if number == 0 {
            return None;
        }
        match self.list.get(number as usize - 1) {
            None => None,
            Some(subscriber) => Some(subscriber.held()),
        }
    }

    /// Drops the notices that the subscriber of a number holds. It allocates nothing.
    pub fn clear(&mut self, number: u32)
        requires some { 0 < number }
        requires there { number ≤ length self.old }
        ensures { self.new ≡ changed_numbered emptied_beside number self.old }
    {
        self.list[number as usize - 1].clear();
    }
}

/// Makes the notice of each subscriber, and room for it. If memory runs out, some may be prepared,
/// and nothing else has changed.
fn prepare_each(
    alloc: Global,
    list: &mut [Subscriber],
    wants: &[Want],
    place: u32,
    delta: &Delta,
) -> Result<(), NoMemory>
    requires { WantsAll (map (λ w. w.kind) wants.now) }
    ensures ok { OnOk result (list.new ≡ map (prepared place delta.now) list.old) }
    ensures err { OnErr result (map given_up list.new ≡ map given_up list.old) }
{
    for subscriber in list.iter_mut() {
        subscriber.prepare(alloc, wants, place, delta)?;
    }
    Ok(())
}

/// Adds the prepared notice of each subscriber to those that it holds.
fn commit_each(list: &mut [Subscriber])
    ensures { list.new ≡ map committed list.old }
{
    for subscriber in list.iter_mut() {
        subscriber.commit();
    }
}

/// Drops the prepared notice of each subscriber.
fn give_up_each(list: &mut [Subscriber])
    ensures { list.new ≡ map given_up list.old }
{
    for subscriber in list.iter_mut() {
        subscriber.give_up();
    }
}
