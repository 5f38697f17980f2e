ghost use Rattle.std.specs.Prelude.{◌≡◌, ◌↔◌, ◌⊎◌, ◌<◌, ◌≤◌, [], ◌∷◌, ◌++◌, length, All, None};
ghost use Rattle.std.specs.Prelude.{Some, IfOk, IsErr, IsErrOf, OnErr, OnOk, true, false};
ghost use Rattle.std.specs.List.{last_or};
ghost use Rattle.std.specs.Option.{option_map};
ghost use mathlib.Core.List.{IsPrefix};
ghost use Rattle.catalogue.specs.Holdings.{StandsFor, history_of, release_held};
ghost use Rattle.publication.specs.Views.{IsNewDesk};
ghost use Rattle.subscribers.specs.Hearing.{all_hear};
ghost use Rattle.subscribers.specs.News.{numbered_from};
ghost use Rattle.subscribers.specs.Views.{changed_numbered, emptied, newcomer};
ghost use Rattle.subscribers.specs.declared.subscriber_list.TheConstants.{MOST_SUBSCRIBERS};
ghost use Rattle.td_base.specs.Views.{one_more};
ghost use Rattle.zone_meaning.specs.Sound.{IsSound};
ghost use Rattle.zone_meaning.specs.ZoneHistories.{zone_bytes};
ghost use Rattle.installer.specs.Installing.{GrowsBy, Installs, InstallsStated};
ghost use Rattle.installer.specs.Serving.{FindsWhether, IsServed};
ghost use Rattle.installer.specs.Views.{IsMadeOut, with_subscribers};

use crate::admitting::{AdmittedRelease, admitted_in, admitted_stated};
use crate::asked::InstallPolicy;
use crate::comparing::is_stated;
use crate::growing::{first_in, first_stated};
use crate::hearing::prepare;
use crate::install_fault::InstallFault;
use catalogue::Catalogue;
use publication::{Desk, Ended, Publisher, Receipt, make};
use release_manifest::Manifest;
use std::alloc::Global;
use std::marker::Model;
use std::sync::Wait;
use subscribers::{Notices, SubscribeFault, Subscribers, Wish};
use td_base::{NoMemory, Store};
use zone_meaning::Zone;

/// Publishes the catalogues of one history, and keeps the subscribers to its installs. It is not
/// `Drop`: each path ends it by `end` or `close`.
pub struct Installer {
    publisher: Publisher<Catalogue<Zone>>,
    subscribers: Subscribers,
}

impl Model for Installer {
    ghost use Rattle.subscribers.specs.Views.{IsIdle, subscribers_of};
    ghost use Rattle.installer.specs.Views.{InstallerView};

    ghost Value = { InstallerView };

    ghost view = { λ i. record {
      pair = i.publisher.pair;
      list = i.publisher.list;
      stuck = i.publisher.stuck;
      tries = i.publisher.tries;
      subscribers = subscribers_of i.subscribers;
    } };

    ghost invariant = { λ i. IsIdle i.subscribers };
}

impl Installer {
    /// Publishes the release of a first folder, for a given number of desks. No rule is applied to
    /// it. An empty `dir` means the store's own top folder. Nothing is published after a fault.
    pub fn open<R: Wait, S: Store>(
        rt: &R,
        alloc: Global,
        dir: &[u8],
        store: &mut S,
        desks: u32,
    ) -> Result<(Installer, Vec<Desk<Catalogue<Zone>>>), InstallFault>
        requires { 0 < desks }
        ensures found { Installs (S.seen store.old) (S.seen store.new) dir.now [] []
            (λ p. history_of p.0.list) result }
        ensures grown { IfOk result (λ p. GrowsBy [] [] (history_of p.0.list)) }
        ensures free { IfOk result (λ p. p.0.stuck ≡ false) }
        ensures nobody { IfOk result (λ p. p.0.subscribers ≡ []) }
        ensures number { IfOk result (λ p. length p.1.items ≡ desks) }
        ensures each { IfOk result (λ p. All (IsNewDesk p.0.pair p.0.list false) p.1.items) }
    {
        let catalogue = first_in(alloc, dir, store)?;
        let (publisher, made) = make(rt, alloc, catalogue, desks)?;
        let subscribers = Subscribers::new(alloc);
        Ok((
            Installer {
                publisher,
                subscribers,
            },
            made,
        ))
    }

    /// Like `open`, for a manifest that the caller has. The files are in the store's own top
    /// folder.
    pub fn open_manifest<R: Wait, S: Store>(
        rt: &R,
        alloc: Global,
        manifest: &Manifest,
        store: &mut S,
        desks: u32,
    ) -> Result<(Installer, Vec<Desk<Catalogue<Zone>>>), InstallFault>
        requires { 0 < desks }
        ensures found { InstallsStated (S.seen store.old) (S.seen store.new) manifest.now [] []
            (λ p. history_of p.0.list) result }
        ensures grown { IfOk result (λ p. GrowsBy [] [] (history_of p.0.list)) }
        ensures free { IfOk result (λ p. p.0.stuck ≡ false) }
        ensures nobody { IfOk result (λ p. p.0.subscribers ≡ []) }
        ensures number { IfOk result (λ p. length p.1.items ≡ desks) }
        ensures each { IfOk result (λ p. All (IsNewDesk p.0.pair p.0.list false) p.1.items) }
    {
        let catalogue = first_stated(alloc, manifest, store)?;
        let (publisher, made) = make(rt, alloc, catalogue, desks)?;
        let subscribers = Subscribers::new(alloc);
        Ok((
            Installer {
                publisher,
                subscribers,
            },
            made,
        ))
    }

    /// Publishes the release of one more folder, if the folder gives one after the history so far
    /// and no rule refuses it. The rules are applied before the next catalogue is made. The publish
    /// is the last step that may fail, and only when out of memory. If the publish is refused at
    /// its last step, the installer is stuck: no later release is published. The call may wait for
    /// desks that are entering.
    pub fn install<R: Wait, S: Store>(
        &mut self,
        rt: &R,
        alloc: Global,
        dir: &[u8],
        store: &mut S,
        asked: &InstallPolicy<'_>,
    ) -> Result<Receipt<Catalogue<Zone>>, InstallFault>
        ensures found { Installs (S.seen store.old) (S.seen store.new) dir.now
            asked.now.rules.chosen (history_of self.old.list) (λ r. history_of r.list) result }
        ensures grown { IfOk result (λ r. GrowsBy asked.now.rules.chosen (history_of self.old.list)
            (history_of r.list)) }
        ensures longer { IfOk result (λ r. IsPrefix self.old.list r.list) }
        ensures receipt { IfOk result (λ r. (r.pair ≡ self.old.pair) × (r.list ≡ self.new.list)
            × (r.ended ≡ false)) }
        ensures refused { OnErr result (self.new.list ≡ self.old.list) }
        ensures heard { OnOk result (self.new.subscribers
            ≡ all_hear (history_of self.new.list) self.old.subscribers) }
        ensures unheard { OnErr result (self.new.subscribers ≡ self.old.subscribers) }
        ensures pair { self.new.pair ≡ self.old.pair }
        ensures free { IfOk result (λ _. self.new.stuck ≡ false) }
        ensures blocked { self.old.stuck ≡ true → IsErr result }
        ensures stuck { OnErr result ((self.new.stuck ≡ self.old.stuck)
            ⊎ (self.new.tries ≡ one_more self.old.tries)) }
    {
        let last = self.publisher.last();
        let admitted = admitted_in(alloc, dir, store, last, &asked.rules, &self.subscribers)?;
        let receipt = self.publish(rt, admitted, asked)?;
        Ok(receipt)
    }

    /// Like `install`, for a manifest that the caller has. The files are in the store's own top
    /// folder.
    pub fn install_manifest<R: Wait, S: Store>(
        &mut self,
        rt: &R,
        alloc: Global,
        manifest: &Manifest,
        store: &mut S,
        asked: &InstallPolicy<'_>,
    ) -> Result<Receipt<Catalogue<Zone>>, InstallFault>
        ensures found { InstallsStated (S.seen store.old) (S.seen store.new) manifest.now
            asked.now.rules.chosen (history_of self.old.list) (λ r. history_of r.list) result }
        ensures grown { IfOk result (λ r. GrowsBy asked.now.rules.chosen (history_of self.old.list)
            (history_of r.list)) }
        ensures longer { IfOk result (λ r. IsPrefix self.old.list r.list) }
        ensures receipt { IfOk result (λ r. (r.pair ≡ self.old.pair) × (r.list ≡ self.new.list)
            × (r.ended ≡ false)) }
        ensures refused { OnErr result (self.new.list ≡ self.old.list) }
        ensures heard { OnOk result (self.new.subscribers
            ≡ all_hear (history_of self.new.list) self.old.subscribers) }
        ensures unheard { OnErr result (self.new.subscribers ≡ self.old.subscribers) }
        ensures pair { self.new.pair ≡ self.old.pair }
        ensures free { IfOk result (λ _. self.new.stuck ≡ false) }
        ensures blocked { self.old.stuck ≡ true → IsErr result }
        ensures stuck { OnErr result ((self.new.stuck ≡ self.old.stuck)
            ⊎ (self.new.tries ≡ one_more self.old.tries)) }
    {
        let last = self.publisher.last();
        let admitted = admitted_stated(
            alloc,
            manifest,
            store,
            last,
            &asked.rules,
            &self.subscribers,
        )?;
        let receipt = self.publish(rt, admitted, asked)?;
        Ok(receipt)
    }

    /// Publishes a catalogue of the history with one more release. The notices are prepared before
    /// it is published, and held once it is.
    fn publish<R: Wait>(
        &mut self,
        rt: &R,
        next: AdmittedRelease,
        asked: &InstallPolicy<'_>,
    ) -> Result<Receipt<Catalogue<Zone>>, NoMemory>
        requires stands { StandsFor zone_bytes IsSound next.catalogue
            (history_of self.old.list ++ release_held zone_bytes next.catalogue ∷ []) }
        requires made_out { IsMadeOut self.old.subscribers next.delta (history_of self.old.list)
            (release_held zone_bytes next.catalogue) }
        ensures ok { IfOk result (λ r. (r.list ≡ self.old.list ++ next.catalogue ∷ [])
            × (r.pair ≡ self.old.pair) × (r.ended ≡ false)) }
        ensures kept { OnOk result (self.new.list ≡ self.old.list ++ next.catalogue ∷ []) }
        ensures refused { OnErr result (self.new.list ≡ self.old.list) }
        ensures heard { OnOk result (self.new.subscribers
            ≡ all_hear (history_of self.new.list) self.old.subscribers) }
        ensures unheard { OnErr result (self.new.subscribers ≡ self.old.subscribers) }
        ensures pair { self.new.pair ≡ self.old.pair }
        ensures free { IfOk result (λ _. self.new.stuck ≡ false) }
        ensures blocked { self.old.stuck ≡ true → IsErr result }
        ensures stuck { OnErr result ((self.new.stuck ≡ self.old.stuck)
            ⊎ (self.new.tries ≡ one_more self.old.tries)) }
    {
        let place = next.catalogue.count();
        prepare(&mut self.subscribers, asked, place, &next.delta)?;
        match self.publisher.publish(rt, next.catalogue) {
            Ok(receipt) => {
                self.subscribers.commit();
                Ok(receipt)
            }
            Err(NoMemory) => {
                self.subscribers.give_up();
                Err(NoMemory)
            }
        }
    }

    /// Adds a subscriber to what is published next, and returns its number, counted from 1. It is
    /// refused as full exactly when [`subscribers::MOST_SUBSCRIBERS`] exist already.
    pub fn subscribe(&mut self, wish: Wish) -> Result<u32, SubscribeFault>
        ensures ok { OnOk result (self.new ≡ with_subscribers
            (self.old.subscribers ++ newcomer wish (length self.old.list) ∷ []) self.old) }
        ensures number { IfOk result (λ number. number ≡ length self.new.subscribers) }
        ensures full { IsErrOf result SubscribeFault.WatchFull
            ↔ (MOST_SUBSCRIBERS ≤ length self.old.subscribers) }
        ensures err { OnErr result (self.new ≡ self.old) }
    {
        let place = self.publisher.last().count();
        self.subscribers.subscribe(wish, place)
    }

    /// The notices that the subscriber of a number holds, which are those not cleared yet. None
    /// exactly when no such subscriber exists. It allocates no memory.
    pub fn held(&self, number: u32) -> Option<Notices<'_>>
        ensures { option_map (λ held. held.now) result
            ≡ option_map (λ s. s.held) (numbered_from self.now.subscribers number) }
    {
        self.subscribers.held(number)
    }

    /// Drops what the subscriber of a number holds. It allocates no memory.
    pub fn clear(&mut self, number: u32)
        requires some { 0 < number }
        requires there { number ≤ length self.old.subscribers }
        ensures { self.new ≡ with_subscribers
            (changed_numbered emptied number self.old.subscribers) self.old }
    {
        self.subscribers.clear(number);
    }

    /// Whether the release published last is the one that a manifest and its files state: the same
    /// stamp, publisher, version and zones, leap seconds aside. The files are in the store's own
    /// top folder. No file is validated, or read further than one byte beyond what is published.
    pub fn last_matches<S: Store>(
        &self,
        alloc: Global,
        manifest: &Manifest,
        store: &mut S,
    ) -> Result<bool, InstallFault>
        ensures { FindsWhether (S.seen store.old) (S.seen store.new)
            (λ files. IsServed files manifest.now (history_of self.now.list)) result }
    {
        is_stated(alloc, manifest, store, self.last())
    }

    /// A receipt of all that was published so far. It allocates no memory, and is refused when the
    /// last catalogue has too many owners.
    pub fn receipt(&self) -> Result<Receipt<Catalogue<Zone>>, NoMemory>
        ensures { IfOk result (λ r. (r.list ≡ self.now.list) × (r.pair ≡ self.now.pair)) }
    {
        self.publisher.receipt()
    }

    /// The catalogue published last, which covers the whole history.
    pub fn last(&self) -> &Catalogue<Zone>
        ensures last { last_or None self.now.list ≡ Some result.now }
        ensures stands { StandsFor zone_bytes IsSound result.now (history_of self.now.list) }
    {
        self.publisher.last()
    }

    /// Ends the history. After `Err` the installer is gone. The call may wait for desks that are
    /// entering.
    pub fn end<R: Wait>(self, rt: &R) -> Result<Ended<Catalogue<Zone>>, NoMemory>
        ensures ended { IfOk result (λ e. (e.pair ≡ self.pair) × (e.list ≡ self.list)) }
        ensures blocked { self.stuck ≡ true → IsErr result }
    {
        let Installer {
            publisher,
            subscribers: _,
        } = self;
        publisher.end(rt)
    }

    /// Waits for desks that are entering, and releases what was published.
    pub fn close<R: Wait>(self, rt: &R) {
        let Installer {
            publisher,
            subscribers: _,
        } = self;
        publisher.close(rt);
    }
}
