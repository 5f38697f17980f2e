ghost use Rattle.std.specs.Prelude.{◌≡◌, [], OnOk};
ghost use Rattle.http_client.specs.CalendarRequests.{calendar_request_text};
ghost use Rattle.calendar_mirror.specs.CalendarShares.{CalendarSyncs};

use crate::CalendarSyncFault;
use crate::turns::turn;
use mirror::{MOST_LISTS, SyncFault, Taken};
use std::alloc::Global;
use sync_core::Mirror;
use td_base::Upstream;

/// Sends the mirror's requests to the upstream under this host name, and applies the answers, until
/// a list of changes comes back empty. After 16 lists it gives up as not settled. After a fault the
/// mirror is as after the last answer that was applied.
#[tactic(auto, using(mirror::proofs::lemmas::Walks::begins, mirror::proofs::lemmas::Walks::list_goes_on, mirror::proofs::lemmas::Walks::file_goes_on))]
pub fn sync<U: Upstream>(
    alloc: Global,
    mirror: &mut Mirror,
    host: &[u8],
    upstream: &mut U,
) -> Result<(), CalendarSyncFault>
    ensures syncs { CalendarSyncs (calendar_request_text host.now) mirror.old mirror.new
        (U.seen upstream.old) (U.seen upstream.new) result }
    ensures settled { OnOk result (mirror.new.pending ≡ []) }
{
    let mut lists = 0;
    let mut asked: u64 = 0;
    'asking: while lists < MOST_LISTS {
        asked = asked.saturating_add(1);
        match turn(alloc, mirror, host, upstream, asked)? {
            Taken::Settled => return Ok(()),
            Taken::List => lists += 1,
            Taken::File => {}
        }
    }
    Err(CalendarSyncFault::Sync(SyncFault::NotSettled(MOST_LISTS)))
}
