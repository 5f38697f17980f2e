ghost use Rattle.std.specs.Prelude.{◌≡◌, true, false};
ghost use Rattle.td_base.specs.Memory.{counted, is_chosen};
ghost use Rattle.td_base.specs.MemoryUpstreams.{faulty_upstream};
ghost use Rattle.td_base.specs.Upstreams.{Exchanges, is_failed_exchange};

use crate::{Exchanged, Faulty, Upstream};
use std::alloc::Global;

impl<U: Upstream> Upstream for Faulty<U> {
    ghost seen = { faulty_upstream U.seen };

    fn exchange(&mut self, alloc: Global, request: &[u8], most: u64) -> Exchanged
        ensures exchanges { Exchanges (faulty_upstream U.seen self.old)
            (faulty_upstream U.seen self.new) request.now most result }
        ensures calls { self.new.calls ≡ counted self.old.calls (is_failed_exchange result) }
        ensures chosen { is_chosen self.old.calls ≡ true
            → (result ≡ Exchanged.Failed) × (self.new.inner ≡ self.old.inner) }
        ensures other { is_chosen self.old.calls ≡ false
            → Exchanges (U.seen self.old.inner) (U.seen self.new.inner) request.now most result }
    {
        if self.calls.begin() {
            self.calls.count_fault();
            return Exchanged::Failed;
        }
        let exchanged = self.inner.exchange(alloc, request, most);
        if let Exchanged::Failed = &exchanged {
            self.calls.count_fault();
        }
        exchanged
    }
}
