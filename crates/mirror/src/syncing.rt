ghost use Rattle.std.specs.Prelude.{◌≡◌, [], OnOk};
ghost use Rattle.http_client.specs.Requests.{request_text};
ghost use Rattle.mirror.specs.Shares.{Syncs};
ghost use Rattle.mirror.specs.Understanding.{Means};

use crate::SyncFault;
use crate::limits::MOST_LISTS;
use crate::taken_type::Taken;
use crate::turns::turn;
use std::alloc::Global;
use sync_core::Mirror;
use td_base::Upstream;

/// Sends the requests of the mirror to the upstream, with `host` as their Host field, and takes the
/// answers. It ends when a list of changes comes back empty. After a fault the mirror is in the
/// state after the last answer taken.
#[tactic(auto, using(crate::proofs::lemmas::Walks::begins, crate::proofs::lemmas::Walks::settled_syncs, crate::proofs::lemmas::Walks::fault_syncs, crate::proofs::lemmas::Walks::list_goes_on, crate::proofs::lemmas::Walks::file_goes_on, crate::proofs::lemmas::Walks::unsettled))]
pub fn sync<U: Upstream>(
    alloc: Global,
    mirror: &mut Mirror,
    host: &[u8],
    upstream: &mut U,
) -> Result<(), SyncFault>
    ensures syncs { Syncs (request_text host.now) Means mirror.old mirror.new (U.seen upstream.old)
        (U.seen upstream.new) result }
    ensures settled { OnOk result (mirror.new.pending ≡ []) }
{
    let mut lists = 0;
    let mut asked: u64 = 0;
    'asking: while lists < MOST_LISTS {
        asked = asked.saturating_add(1);
        match turn(alloc, mirror, host, upstream, asked)? {
            Taken::Settled => return Ok(()),
            Taken::List => lists += 1,
            Taken::File => {}
        }
    }
    Err(SyncFault::NotSettled(MOST_LISTS))
}
