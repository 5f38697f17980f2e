ghost use Rattle.std.specs.Prelude.{◌≡◌, ◌≢◌, [], ◌∷◌, ◌++◌, drop, take, IfOk, OnOk, OnErr};
ghost use Rattle.td_base.specs.MemoryUpstreams.{IsScriptAnswer, memory_upstream, next_answer};
ghost use Rattle.td_base.specs.Upstreams.{Exchanges};

use crate::{Bytes, Exchange, Exchanged, NoMemory, Upstream};
use std::alloc::Global;
use std::collections::VecDeque;
use std::marker::Model;

/// Another server in memory: a script of its answers, whatever the requests. After the end of the
/// script it answers with no byte. Contracts see its exchanges, and it never fails.
#[derive(Drop)]
pub struct MemoryUpstream {
    answers: VecDeque<Bytes>,
    told: Vec<Exchange>,
}

impl Model for MemoryUpstream {
    ghost use Rattle.td_base.specs.MemoryUpstreams.{MemoryUpstreamState};

    ghost Value = { MemoryUpstreamState };

    ghost view = { λ u. record { answers = u.answers.items; told = u.told.items } };
}

impl MemoryUpstream {
    /// A server with an empty script.
    pub fn new(alloc: Global) -> MemoryUpstream
        ensures { result ≡ record { answers = []; told = [] } }
    {
        MemoryUpstream {
            answers: VecDeque::new(alloc),
            told: Vec::new(alloc),
        }
    }

    /// Adds an answer at the end of the script.
    pub fn push(&mut self, answer: Bytes) -> Result<(), NoMemory>
        ensures ok { OnOk result (self.new ≡ record self.old {
          answers = self.old.answers ++ answer ∷ [];
        }) }
        ensures err { OnErr result (self.new ≡ self.old) }
    {
        self.answers.push_back(answer)?;
        Ok(())
    }

    /// The exchanges so far, in their order.
    pub fn told(&self) -> &[Exchange]
        ensures { result.now ≡ self.now.told }
    {
        self.told.as_slice()
    }

    /// The next answer; empty after the end of the script.
    fn next(&self) -> &[u8]
        ensures { result.now ≡ next_answer self.now.answers }
    {
        match self.answers.front() {
            Some(answer) => answer.as_slice(),
            None => &[],
        }
    }

    /// The first `most` bytes of the next answer, which is removed from the script. The exchange is
    /// kept.
    fn answer(&mut self, alloc: Global, request: &[u8], most: u64) -> Result<Bytes, NoMemory>
        ensures given { IfOk result (λ answer. answer ≡ take most (next_answer self.old.answers)) }
        ensures told { IfOk result (λ answer. self.new ≡ record {
          answers = drop 1 self.old.answers;
          told = self.old.told
              ++ record { request = request.now; most = most; answer = answer } ∷ [];
        }) }
        ensures err { OnErr result (self.new ≡ self.old) }
    {
        let request = Bytes::from_slice(alloc, request)?;
        let next = self.next();
        let count = next.len().min(most as usize);
        let kept = Bytes::from_slice(alloc, &next[..count])?;
        let given = Bytes::from_slice(alloc, &next[..count])?;
        self.told.reserve(1)?;
        let _ = self.answers.pop_front();
        self.told.push_reserved(Exchange {
            request,
            most,
            answer: kept,
        });
        Ok(given)
    }
}

impl Upstream for MemoryUpstream {
    ghost seen = { memory_upstream };

    fn exchange(&mut self, alloc: Global, request: &[u8], most: u64) -> Exchanged
        ensures exchanges { Exchanges (memory_upstream self.old) (memory_upstream self.new)
            request.now most result }

        // It answers what its script says, cut to `most` bytes.
        ensures answer { IsScriptAnswer (take most (next_answer self.old.answers)) result }
        ensures script { result ≢ Exchanged.NoMemory
            → self.new.answers ≡ drop 1 self.old.answers }
        ensures kept { result ≡ Exchanged.NoMemory → self.new ≡ self.old }
    {
        match self.answer(alloc, request, most) {
            Ok(answer) => Exchanged::Got(answer),
            Err(NoMemory) => Exchanged::NoMemory,
        }
    }
}
