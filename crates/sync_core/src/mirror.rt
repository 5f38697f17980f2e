ghost use Rattle.std.specs.Prelude.{◌≡◌, [], map, None, IfOk, IsOk, OnOk, OnErr, option_copied};
ghost use Rattle.catalogue.specs.Order.{IsRising};
ghost use Rattle.td_base.specs.declared.report.Ask.TheVariants as ask;
ghost use Rattle.sync_core.specs.Mirrors.{ask_of, empty_mirror, entry_name};
ghost use Rattle.sync_core.specs.Published.{HasFiles, file_bytes, manifest_of};
ghost use Rattle.sync_core.specs.Steps as steps;
ghost use Rattle.sync_core.specs.declared.heard_type.Heard.TheVariants as said;
ghost use Rattle.sync_core.specs.declared.heard_type.Settled.TheVariants.{Holds};

use crate::aliases::{aliases_in, drop_entries, drop_files};
use crate::listed::in_order;
use crate::merging::merged;
use crate::mirror_files::MirrorFiles;
use crate::publishing::manifest;
use crate::{Heard, Settled};
use json_forms::{ListDoc, ListZone};
use release_manifest::Manifest;
use std::alloc::Global;
use std::collections::{BTreeMap, VecDeque};
use std::marker::Model;
use std::mem::replace;
use td_base::{Ask, Bytes, NoMemory};

/// The state of a secondary that follows a primary.
#[derive(Drop)]
pub struct Mirror {
    token: Option<Bytes>,
    coming: Option<Bytes>,
    entries: Vec<ListZone>,
    files: BTreeMap<Bytes, Bytes>,
    pending: VecDeque<Bytes>,
}

impl Model for Mirror {
    ghost use Rattle.std.specs.Prelude.{map};
    ghost use Rattle.catalogue.specs.Order.{IsRising};
    ghost use Rattle.sync_core.specs.Mirrors.{MirrorState, entry_name, files_kept};

    ghost Value = { MirrorState };

    ghost view = { λ m. record {
      token = m.token;
      coming = m.coming;
      entries = m.entries.items;
      files = files_kept m.files.entries;
      pending = m.pending.items;
    } };

    ghost invariant = { λ m. IsRising (map entry_name m.entries.items) };
}

impl Mirror {
    /// A mirror that has received nothing yet. It allocates nothing; later growth uses the
    /// allocator.
    pub fn empty(alloc: Global) -> Mirror
        ensures { result ≡ empty_mirror }
    {
        Mirror {
            token: None,
            coming: None,
            entries: Vec::new(alloc),
            files: BTreeMap::new(alloc),
            pending: VecDeque::new(alloc),
        }
    }

    /// The next request. It stays the same until a response is taken. A request for a list without
    /// a token allocates nothing.
    pub fn ask(&self, alloc: Global) -> Result<Ask, NoMemory>
        ensures asked { IfOk result (λ asked. asked ≡ ask_of self.now) }
        ensures memory { ask_of self.now ≡ ask.List None → IsOk result }
    {
        match self.pending.front() {
            Some(tzid) => Ok(Ask::Get(tzid.clone_in(alloc)?)),
            None => Ok(Ask::List(copied(alloc, &self.token)?)),
        }
    }

    /// Takes the response to the present request. Taking a refused token, or a list without
    /// changes, allocates nothing. If memory runs out, the state does not change.
    #[tactic(auto, unfolding(crate::specs::Steps::sync_step))]
    pub fn take(&mut self, heard: Heard) -> Result<Settled, NoMemory>
        requires { steps.IsAnswerTo (ask_of self.old) heard }
        ensures state { OnOk result (self.new ≡ steps.sync_step self.old heard) }
        ensures settled { IfOk result (λ s. s ≡ steps.settles self.old heard) }
        ensures unchanged { OnErr result (self.new ≡ self.old) }
        ensures refused { heard ≡ said.BadToken → IsOk result }
        ensures holds { steps.settles self.old heard ≡ Holds → IsOk result }
    {
        let settled = self.settles(&heard);
        self.hear(heard)?;
        self.settle();
        Ok(settled)
    }

    /// The request brought no response and is to be repeated. The state does not change.
    pub fn lose(&mut self)
        ensures { self.new ≡ self.old }
    {}

    /// The zones that are known, in rising order of identifiers.
    pub fn entries(&self) -> &[ListZone]
        ensures entries { result.now ≡ self.now.entries }
        ensures rising { IsRising (map entry_name result.now) }
    {
        self.entries.as_slice()
    }

    /// The TZif file that is kept for the zone with this identifier.
    #[tactic(auto, using(crate::proofs::Kept::file_found))]
    pub fn file(&self, tzid: &Bytes) -> Option<&Bytes>
        ensures { option_copied result ≡ file_bytes self.now.files tzid.now }
    {
        self.files.get(tzid)
    }

    /// The release that is held: its manifest, and a store that has each zone's file under the
    /// zone's identifier.
    pub fn manifest(&self, alloc: Global) -> Result<(Manifest, MirrorFiles<'_>), NoMemory>
        requires { self.now.pending ≡ [] }
        ensures manifest { IfOk result (λ r. r.0 ≡ manifest_of self.now) }
        ensures files { IfOk result (λ r. HasFiles r.1 self.now.files) }
    {
        let stated = manifest(alloc, self.entries.as_slice())?;
        Ok((stated, MirrorFiles::new(&self.files)))
    }

    /// Whether the list shows that the mirror holds the release of the primary.
    fn settles(&self, heard: &Heard) -> Settled
        ensures { result ≡ steps.settles self.now heard.now }
    {
        match (heard, &self.token) {
            (Heard::List(doc), Some(_)) if doc.zones.len() == 0 => Settled::Holds,
            _ => Settled::More,
        }
    }

    fn hear(&mut self, heard: Heard) -> Result<(), NoMemory>
        ensures ok { OnOk result (self.new ≡ steps.after_heard self.old heard) }
        ensures err { OnErr result (self.new ≡ self.old) }
        ensures refused { heard ≡ said.BadToken → IsOk result }
        ensures holds { steps.settles self.old heard ≡ Holds → IsOk result }
    {
        match heard {
            Heard::List(doc) => self.hear_list(doc)?,
            Heard::Zone(bytes) => self.hear_file(bytes)?,
            Heard::BadToken => self.token = None,
        }
        Ok(())
    }

    fn hear_list(&mut self, doc: ListDoc) -> Result<(), NoMemory>
        ensures ok { OnOk result (self.new ≡ steps.after_list self.old.token self.old doc) }
        ensures err { OnErr result (self.new ≡ self.old) }
        ensures holds { steps.list_settles self.old.token doc.zones ≡ Holds → IsOk result }
    {
        if self.token.is_none() {
            return self.hear_full(doc);
        }
        if doc.zones.len() == 0 {
            self.token = Some(doc.token);
            return Ok(());
        }
        self.hear_changes(doc)
    }

    fn hear_full(&mut self, doc: ListDoc) -> Result<(), NoMemory>
        ensures ok { OnOk result (self.new ≡ steps.after_full self.old doc) }
        ensures err { OnErr result (self.new ≡ self.old) }
    {
        let ListDoc { token, zones } = doc;
        let listed = in_order(*self.entries.allocator(), zones)?;
        self.coming = Some(token);
        self.entries = listed.zones;
        self.files.clear();
        self.pending = listed.names;
        Ok(())
    }

    fn hear_changes(&mut self, doc: ListDoc) -> Result<(), NoMemory>
        ensures ok { OnOk result (self.new ≡ steps.with_changes self.old doc.token doc.zones) }
        ensures err { OnErr result (self.new ≡ self.old) }
    {
        let alloc = *self.entries.allocator();
        let ListDoc { token, zones } = doc;
        let aliases = aliases_in(alloc, zones.as_slice())?;
        let listed = in_order(alloc, zones)?;
        let room = Vec::with_capacity(alloc, self.entries.len() + listed.zones.len())?;
        drop_entries(&mut self.entries, &aliases);
        drop_files(&mut self.files, &aliases);
        let known = replace(&mut self.entries, Vec::new(alloc));
        self.entries = merged(known, listed.zones, room);
        self.coming = Some(token);
        self.pending = listed.names;
        Ok(())
    }

    fn hear_file(&mut self, bytes: Bytes) -> Result<(), NoMemory>
        ensures ok { OnOk result (self.new ≡ steps.after_file self.old.pending self.old bytes) }
        ensures err { OnErr result (self.new ≡ self.old) }
    {
        let Some(first) = self.pending.front() else {
            return Ok(());
        };
        let tzid = first.clone_in(*self.entries.allocator())?;
        let _ = self.files.insert(tzid, bytes)?;
        let _ = self.pending.pop_front();
        Ok(())
    }

    /// If no file is pending, the coming token becomes the token.
    fn settle(&mut self)
        ensures { self.new ≡ steps.settled self.old }
    {
        if self.pending.is_empty() && self.coming.is_some() {
            self.token = self.coming.take();
        }
    }
}

/// A copy of a token.
fn copied(alloc: Global, token: &Option<Bytes>) -> Result<Option<Bytes>, NoMemory>
    ensures copy { IfOk result (λ copy. copy ≡ token.now) }
    ensures memory { token.now ≡ None → IsOk result }
{
    match token {
        Some(token) => Ok(Some(token.clone_in(alloc)?)),
        None => Ok(None),
    }
}
