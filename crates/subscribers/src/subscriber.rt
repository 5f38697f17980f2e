ghost use Rattle.std.specs.Prelude.{◌≡◌, OnErr, OnOk, map, None};
ghost use Rattle.subscribers.specs.Views.{committed, emptied_beside, given_up, newcomer, prepared};
ghost use Rattle.subscribers.specs.Wishes.{WantsAll};

use crate::noticing::notice_of;
use crate::{Notice, Notices, Want, Wish};
use admission::Delta;
use std::alloc::Global;
use std::marker::Model;
use td_base::NoMemory;

/// One subscriber. The notice that is prepared for it has room reserved among those that it holds.
#[derive(Drop)]
pub struct Subscriber {
    wish: Wish,
    from: u32,
    held: Vec<Notice>,
    next: Option<Notice>,
}

impl Model for Subscriber {
    ghost use Rattle.std.specs.Prelude.{◌<◌, length, IfSome};
    ghost use Rattle.std.specs.Vec.{vec_capacity};
    ghost use Rattle.subscribers.specs.Views.{PreparedView};

    ghost Value = { PreparedView };

    ghost view = { λ s. record {
      subscriber = record { wish = s.wish; from = s.from; held = s.held.items };
      next = s.next;
    } };

    ghost invariant = { λ s. IfSome s.next (λ _. length s.held.items < vec_capacity s.held) };
}

impl Subscriber {
    /// A subscriber that has seen the history up to a place. It allocates nothing.
    pub fn new(alloc: Global, wish: Wish, from: u32) -> Subscriber
        ensures subscriber { result.subscriber ≡ newcomer wish from }
        ensures next { result.next ≡ None }
    {
        Subscriber {
            wish,
            from,
            held: Vec::new(alloc),
            next: None,
        }
    }

    /// Makes the notice of the changes of the release at a place, and reserves room for it.
    pub fn prepare(
        &mut self,
        alloc: Global,
        wants: &[Want],
        place: u32,
        delta: &Delta,
    ) -> Result<(), NoMemory>
        requires { WantsAll (map (λ w. w.kind) wants.now) }
        ensures ok { OnOk result (self.new ≡ prepared place delta.now self.old) }
        ensures err { OnErr result (self.new ≡ self.old) }
    {
        let next = notice_of(alloc, wants, &self.wish, place, delta)?;
        self.held.reserve(1)?;
        self.next = next;
        Ok(())
    }

    /// Adds the prepared notice to those that it holds.
    pub fn commit(&mut self)
        ensures { self.new ≡ committed self.old }
    {
        match self.next.take() {
            None => {}
            Some(notice) => self.held.push_reserved(notice),
        }
    }

    /// Drops the prepared notice.
    pub fn give_up(&mut self)
        ensures { self.new ≡ given_up self.old }
    {
        self.next = None;
    }

    /// The notices that it holds.
    pub fn held(&self) -> Notices<'_>
        ensures { result.now ≡ self.now.subscriber.held }
    {
        self.held.as_slice()
    }

    /// Drops the notices that it holds.
    pub fn clear(&mut self)
        ensures { self.new ≡ emptied_beside self.old }
    {
        self.held.clear();
    }
}
