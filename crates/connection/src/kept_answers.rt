ghost use Rattle.std.specs.Prelude.{◌≡◌, ◌≤◌, []};
ghost use Rattle.answer_cache.specs.declared.cache.TheConstants.{MOST_ANSWERS};

use answer_cache::{AnswerCache, Key, MOST_ANSWERS, MOST_BODY, ReadyAnswer};
use std::alloc::Global;

/// The longest body that is kept, in bytes.
pub const MOST_LARGE_BODY: usize = 8_388_608;

/// The response cache of a worker, kept from one request to the next.
#[derive(Drop)]
pub struct KeptAnswers {
    /// The most recently used answers, with bodies of at most 65,536 bytes.
    pub many: AnswerCache,
    /// The last answer with a larger body, of at most 8,388,608 bytes.
    pub large: AnswerCache,
    /// How often an answer was computed.
    pub computed: u64,
}

impl KeptAnswers {
    ghost use Rattle.connection.specs.Keeping.{KeepsNothing, KeepsOneOf};

    /// A cache of 64 answers, and a cache of one large answer. When there is no memory for one of
    /// them, that one will never keep an answer.
    pub fn new(alloc: Global) -> KeptAnswers
        ensures { KeepsNothing result }
    {
        KeptAnswers {
            many: room_or_none(alloc, MOST_ANSWERS, MOST_BODY),
            large: room_or_none(alloc, 1, MOST_LARGE_BODY),
            computed: 0,
        }
    }

    /// Keeps the answer to the key in the cache for the size of its body. Without memory nothing
    /// changes.
    pub fn keep(&mut self, key: Key, answer: ReadyAnswer)
        ensures { KeepsOneOf self.old self.new key answer }
    {
        if answer.body().len() <= MOST_BODY {
            self.many.keep(key, answer);
        } else {
            self.large.keep(key, answer);
        }
    }
}

/// A cache that keeps nothing yet. Without memory for it, one that never keeps an answer.
fn room_or_none(alloc: Global, capacity: usize, most_body: usize) -> AnswerCache
    requires some { 1 ≤ capacity }
    requires few { capacity ≤ MOST_ANSWERS }
    ensures { result.kept ≡ [] }
{
    match AnswerCache::with_bound(alloc, capacity, most_body) {
        Ok(cache) => cache,
        Err(_) => AnswerCache::without_room(alloc),
    }
}
