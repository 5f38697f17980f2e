ghost use Rattle.std.specs.Prelude.{◌≡◌, ◌≢◌, Err, IfErr, IfOk, OnErr, OnOk};
ghost use Rattle.http_client.specs.Replies.{IsReading};
ghost use Rattle.http_client.specs.declared.reply.BadReply.TheVariants as bad;
ghost use Rattle.json_forms.specs.ListReading.{list_read};
ghost use Rattle.made_load.specs.Counts as counts;

use http_client::{BadReply, Reply, read};
use json_forms::{BadList, read_list};
use std::alloc::Global;
use td_base::NoMemory;

/// The counts of a load. Each count stops at the largest value of its type.
#[derive(Clone, Copy, PartialEq, Eq)]
pub struct LoadCounts {
    /// Releases that were served.
    pub releases: u32,
    /// Requests that were answered.
    pub requests: u32,
    /// Replies with status 200.
    pub fine: u32,
    /// Replies with status 304.
    pub unchanged: u32,
    /// Entries of the lists of zones in the replies.
    pub entries: u32,
}

impl LoadCounts {
    /// All counts zero.
    pub fn none() -> LoadCounts
        ensures { result ≡ counts.no_counts }
    {
        LoadCounts {
            releases: 0,
            requests: 0,
            fine: 0,
            unchanged: 0,
            entries: 0,
        }
    }

    /// Counts a release.
    pub fn add_release(&mut self)
        ensures { self.new ≡ counts.with_release self.old }
    {
        self.releases = self.releases.saturating_add(1);
    }

    /// Counts a reply, given as the bytes of exactly one (RFC 9112). After a fault nothing is
    /// counted.
    pub fn add_reply(&mut self, alloc: Global, bytes: &[u8]) -> Result<(), BadReply>
        ensures ok { OnOk result (counts.CountsReply bytes.now self.old self.new) }
        ensures err { OnErr result (self.new ≡ self.old) }
        ensures fault { IfErr result (λ e. e ≢ bad.NoMemory → IsReading bytes.now (Err e)) }
    {
        let reply = read(alloc, bytes)?;
        let entries = entry_count(alloc, &reply)?;
        self.count(reply.status, entries);
        Ok(())
    }

    /// Counts a reply with this status and this number of list entries.
    fn count(&mut self, status: u16, entries: usize)
        ensures { self.new ≡ counts.with_entries self.old status entries }
    {
        self.requests = self.requests.saturating_add(1);
        if status == 200 {
            self.fine = self.fine.saturating_add(1);
        }
        if status == 304 {
            self.unchanged = self.unchanged.saturating_add(1);
        }
        let entries = entries.min(u32::MAX as usize) as u32;
        self.entries = self.entries.saturating_add(entries);
    }
}

/// The number of entries of the list in the body of a reply; 0 where the body is not a list.
fn entry_count(alloc: Global, reply: &Reply) -> Result<usize, NoMemory>
    ensures { IfOk result (λ n. n ≡ counts.counted_entries (list_read reply.now.body)) }
{
    match read_list(alloc, reply.body.as_slice()) {
        Ok(list) => Ok(list.zones.len()),
        Err(BadList::NoMemory) => Err(NoMemory),
        Err(BadList::BadList(_)) => Ok(0),
    }
}
