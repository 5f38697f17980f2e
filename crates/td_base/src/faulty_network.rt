ghost use Rattle.std.specs.Prelude.{◌≡◌, true, false};
ghost use Rattle.td_base.specs.Doors.{Opens, is_failed_call};
ghost use Rattle.td_base.specs.Memory.{counted, is_chosen};
ghost use Rattle.td_base.specs.MemoryNetworks.{faulty_network};
ghost use Rattle.td_base.specs.Upstreams.{Reaches};

use crate::{Faulty, Made, Network};
use std::alloc::Global;

/// A network that makes chosen calls fail. Calls of both kinds are counted together.
impl<N: Network> Network for Faulty<N> {
    type Door = N::Door;

    type Up = N::Up;

    ghost seen = { faulty_network N.seen };

    fn doors(&mut self, alloc: Global, address: &[u8], number: u32) -> Made<Vec<N::Door>>
        ensures opens { Opens N.Door.seen (faulty_network N.seen self.old)
            (faulty_network N.seen self.new) address.now number result }
        ensures calls { self.new.calls ≡ counted self.old.calls (is_failed_call result) }
        ensures chosen { is_chosen self.old.calls ≡ true
            → (result ≡ Made.Failed) × (self.new.inner ≡ self.old.inner) }
        ensures other { is_chosen self.old.calls ≡ false
            → Opens N.Door.seen (N.seen self.old.inner) (N.seen self.new.inner)
            address.now number result }
    {
        if self.calls.begin() {
            self.calls.count_fault();
            return Made::Failed;
        }
        let made = self.inner.doors(alloc, address, number);
        if let Made::Failed = &made {
            self.calls.count_fault();
        }
        made
    }

    fn upstream(&mut self, alloc: Global, address: &[u8]) -> Made<N::Up>
        ensures reaches { Reaches N.Up.seen (faulty_network N.seen self.old)
            (faulty_network N.seen self.new) address.now result }
        ensures calls { self.new.calls ≡ counted self.old.calls (is_failed_call result) }
        ensures chosen { is_chosen self.old.calls ≡ true
            → (result ≡ Made.Failed) × (self.new.inner ≡ self.old.inner) }
        ensures other { is_chosen self.old.calls ≡ false
            → Reaches N.Up.seen (N.seen self.old.inner) (N.seen self.new.inner)
            address.now result }
    {
        if self.calls.begin() {
            self.calls.count_fault();
            return Made::Failed;
        }
        let made = self.inner.upstream(alloc, address);
        if let Made::Failed = &made {
            self.calls.count_fault();
        }
        made
    }
}
