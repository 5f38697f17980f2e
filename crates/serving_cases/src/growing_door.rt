//! A door at which releases are installed between connections.
ghost use Rattle.std.specs.Prelude.{◌≡◌};
ghost use Rattle.subscribers.specs.Wishes.{takes_by};

use crate::listed_door::ListedDoor;
use admission::{Changed, Rules};
use installer::{InstallPolicy, Installer};
use release_manifest::Manifest;
use std::alloc::{AllocError, Global};
use std::collections::VecDeque;
use std::sync::Wait;
use subscribers::{Want, WantTest, Wish, WishKind, is_any, is_past, is_under};
use td_base::{Accepted, Door, FaultyConn, MemoryConn, MemoryStore, Report};

/// A door that installs a release before it hands out the connection of a step `p`. Contracts see
/// only its last answer.
pub struct GrowingDoor<'a, R> {
    pub rt: &'a R,
    pub alloc: Global,
    pub installer: Installer,
    pub store: MemoryStore,
    pub steps: VecDeque<u8>,
    pub manifests: VecDeque<Manifest>,
    pub door: ListedDoor,
}

impl<R: Wait> GrowingDoor<'_, R> {
    /// Closes the installer, and returns the door.
    pub fn close(self) -> ListedDoor {
        let GrowingDoor {
            rt,
            alloc: _,
            installer,
            store: _,
            steps: _,
            manifests: _,
            door,
        } = self;
        installer.close(rt);
        door
    }
}

/// Installs the release of the next manifest, if the next step is `p`.
fn grow<R: Wait>(
    rt: &R,
    alloc: Global,
    installer: &mut Installer,
    store: &mut MemoryStore,
    steps: &mut VecDeque<u8>,
    manifests: &mut VecDeque<Manifest>,
) {
    if steps.pop_front() == Some(b'p') {
        if let Some(manifest) = manifests.pop_front() {
            let _ = install(rt, alloc, installer, store, &manifest);
        }
    }
}

/// Installs the release of a manifest. There is no subscriber, but the install borrows tests of
/// wishes as any other does.
#[tactic(auto, using(subscribers::proofs::lemmas::Wanting::three_wanted))]
fn install<R: Wait>(
    rt: &R,
    alloc: Global,
    installer: &mut Installer,
    store: &mut MemoryStore,
    manifest: &Manifest,
) -> Result<(), AllocError> {
    let any = |change: &Changed, wish: &Wish| -> bool
        ensures { result ≡ takes_by WishKind.Any change.now wish.now }
    { is_any(change, wish) };
    let under = |change: &Changed, wish: &Wish| -> bool
        ensures { result ≡ takes_by WishKind.Under change.now wish.now }
    { is_under(change, wish) };
    let past = |change: &Changed, wish: &Wish| -> bool
        ensures { result ≡ takes_by WishKind.Past change.now wish.now }
    { is_past(change, wish) };
    let any: WantTest = Box::new(alloc, any)?;
    let under: WantTest = Box::new(alloc, under)?;
    let past: WantTest = Box::new(alloc, past)?;
    let wants = [
        Want::new(WishKind::Any, any),
        Want::new(WishKind::Under, under),
        Want::new(WishKind::Past, past),
    ];
    let asked = InstallPolicy::new(Rules::none(alloc), &wants);
    let _ = installer.install_manifest(rt, alloc, manifest, store, &asked);
    Ok(())
}

impl<R: Wait> Door for GrowingDoor<'_, R> {
    ghost use Rattle.std.specs.Prelude.{None};

    type Conn = FaultyConn<MemoryConn>;

    ghost seen = { λ d. record { content = None; last = d.door.last; faults = d.door.faults } };

    fn accept(&mut self) -> Accepted<FaultyConn<MemoryConn>> {
        grow(
            self.rt,
            self.alloc,
            &mut self.installer,
            &mut self.store,
            &mut self.steps,
            &mut self.manifests,
        );
        self.door.accept()
    }

    fn finish(&mut self, conn: FaultyConn<MemoryConn>, report: Report) {
        self.door.finish(conn, report);
    }
}
