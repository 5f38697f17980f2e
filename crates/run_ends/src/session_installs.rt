ghost use Rattle.std.specs.Prelude.{◌≡◌, [], OnOk, OnErr};
ghost use Rattle.catalogue.specs.Holdings.{history_of};
ghost use Rattle.subscribers.specs.Hearing.{all_hear};
ghost use Rattle.installer.specs.Installing.{GrowsBy, Installs, InstallsStated};
ghost use Rattle.run_ends.specs.Sessions.{LaterSession};

use crate::session::Session;
use admission::Rules;
use installer::{InstallFault, InstallPolicy};
use release_manifest::Manifest;
use std::sync::Wait;
use td_base::Store;

impl Session {
    /// Installs the release of a folder, if no rule refuses it, and lets the desk learn it.
    pub fn install<R: Wait, S: Store>(
        &mut self,
        rt: &R,
        dir: &[u8],
        store: &mut S,
        asked: &InstallPolicy<'_>,
    ) -> Result<(), InstallFault>
        ensures found { Installs (S.seen store.old) (S.seen store.new) dir.now
            asked.now.rules.chosen (history_of self.old.installer.list)
            (λ u. history_of self.new.installer.list) result }
        ensures grown { OnOk result (GrowsBy asked.now.rules.chosen
            (history_of self.old.installer.list) (history_of self.new.installer.list)) }
        ensures refused { OnErr result (self.new.installer.list ≡ self.old.installer.list) }
        ensures heard { OnOk result (self.new.installer.subscribers
            ≡ all_hear (history_of self.new.installer.list) self.old.installer.subscribers) }
        ensures unheard { OnErr result
            (self.new.installer.subscribers ≡ self.old.installer.subscribers) }
        ensures later { LaterSession self.old self.new }
    {
        let receipt = self.installer.install(rt, self.alloc, dir, store, asked)?;
        self.desk.learn(receipt);
        Ok(())
    }

    /// Installs the release of a manifest and its files, to which no rule applies, and lets the
    /// desk learn it.
    pub fn install_stated<R: Wait, S: Store>(
        &mut self,
        rt: &R,
        manifest: &Manifest,
        store: &mut S,
        asked: &InstallPolicy<'_>,
    ) -> Result<(), InstallFault>
        ensures found { InstallsStated (S.seen store.old) (S.seen store.new) manifest.now []
            (history_of self.old.installer.list) (λ u. history_of self.new.installer.list) result }
        ensures grown { OnOk result (GrowsBy [] (history_of self.old.installer.list)
            (history_of self.new.installer.list)) }
        ensures refused { OnErr result (self.new.installer.list ≡ self.old.installer.list) }
        ensures heard { OnOk result (self.new.installer.subscribers
            ≡ all_hear (history_of self.new.installer.list) self.old.installer.subscribers) }
        ensures unheard { OnErr result
            (self.new.installer.subscribers ≡ self.old.installer.subscribers) }
        ensures later { LaterSession self.old self.new }
    {
        let unruled = InstallPolicy::new(Rules::none(self.alloc), asked.wants);
        let receipt = self
            .installer
            .install_manifest(rt, self.alloc, manifest, store, &unruled)?;
        self.desk.learn(receipt);
        Ok(())
    }

    /// Releases what is published. It may wait for desks that are entering.
    pub fn close<R: Wait>(self, rt: &R) {
        let Session {
            alloc: _,
            installer,
            desk: _,
        } = self;
        installer.close(rt);
    }
}
