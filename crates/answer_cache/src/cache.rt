ghost use Rattle.std.specs.Prelude.{◌≡◌, ◌<◌, ◌≤◌, ◌↔◌, IfOk, IsTrue, Some, length, option_map};
ghost use Rattle.std.specs.Prelude.{slice_get};
ghost use Rattle.answer_cache.specs.Computing.{RoseByOne};
ghost use Rattle.answer_cache.specs.Keeping.{AreRight, IsKeyAmong, IsFirst, KeepsNoOther};
ghost use Rattle.answer_cache.specs.Keeping.{KeepsOneMore, new_cache};
ghost use Rattle.answer_cache.specs.declared.key.Key.{Key as AnyKey};
ghost use Rattle.http_answer.specs.Replies.{IsAnswerStatus};

use crate::copies::copy_of_answer;
use crate::tables::{promote, put};
use crate::{Compute, Key, ReadyAnswer};
use http_answer::Answer;
use lru::LruCache;
use std::alloc::Global;
use std::marker::Model;
use std::num::NonZeroUsize;
use td_base::NoMemory;

/// The most answers that a cache holds.
pub const MOST_ANSWERS: usize = 64;

/// The longest body that is kept, in bytes, where no other bound is given.
pub const MOST_BODY: usize = 65_536;

/// The answers to the most recently used keys (an LRU cache).
#[derive(Drop)]
pub struct AnswerCache {
    alloc: Global,
    table: Option<LruCache<Key, ReadyAnswer>>,
    most_body: usize,
}

impl Model for AnswerCache {
    ghost use Rattle.answer_cache.specs.Keeping.{CacheView, kept_in, room_of};

    ghost Value = { CacheView };

    ghost view = { λ c. record {
      kept = kept_in c.table;
      capacity = room_of c.table;
      most_body = c.most_body;
    } };
}

impl AnswerCache {
    /// An empty cache of this capacity, which never keeps a body over 65,536 bytes.
    pub fn new(alloc: Global, capacity: usize) -> Result<AnswerCache, NoMemory>
        requires some { 1 ≤ capacity }
        requires few { capacity ≤ MOST_ANSWERS }
        ensures { IfOk result (λ cache. cache ≡ new_cache capacity MOST_BODY) }
    {
        AnswerCache::with_bound(alloc, capacity, MOST_BODY)
    }

    /// The same with another bound on bodies, in bytes.
    pub fn with_bound(
        alloc: Global,
        capacity: usize,
        most_body: usize,
    ) -> Result<AnswerCache, NoMemory>
        requires some { 1 ≤ capacity }
        requires few { capacity ≤ MOST_ANSWERS }
        ensures { IfOk result (λ cache. cache ≡ new_cache capacity most_body) }
    {
        let Some(room) = NonZeroUsize::new(capacity) else {
            unreachable!()
        };
        let table = LruCache::new(alloc, room)?;
        Ok(AnswerCache {
            alloc,
            table: Some(table),
            most_body,
        })
    }

    /// A cache without capacity, which never keeps anything. It allocates nothing.
    pub fn without_room(alloc: Global) -> AnswerCache
        ensures { result ≡ new_cache 0 0 }
    {
        AnswerCache {
            alloc,
            table: None,
            most_body: 0,
        }
    }

    /// Whether an answer to the key is kept. If so, it becomes the most recently used.
    pub fn promote(&mut self, key: &Key) -> bool
        ensures found { IsTrue result ↔ IsKeyAmong self.old.kept key.now }
        ensures first { IsTrue result → IsFirst self.new.kept key.now }
        ensures kept { KeepsNoOther self.old self.new }
    {
        promote(&mut self.table, key)
    }

    /// Borrows the most recently used answer.
    pub fn newest(&self) -> &ReadyAnswer
        requires { 0 < length self.now.kept }
        ensures { option_map (λ pair. pair.1) (slice_get self.now.kept 0) ≡ Some result.now }
    {
        let Some(table) = &self.table else {
            unreachable!()
        };
        let Some((_, answer)) = table.peek_mru() else {
            unreachable!()
        };
        answer
    }

    /// Keeps the answer to the key as the most recently used, unless its body is too long. A full
    /// cache evicts the least recently used answer. If memory runs out, nothing changes.
    pub fn keep(&mut self, key: Key, answer: ReadyAnswer)
        ensures { KeepsOneMore self.old self.new key answer }
    {
        if answer.body().len() <= self.most_body {
            put(&mut self.table, key, answer);
        }
    }

    /// The answer to the key: a copy of the kept one, or else a computed one, of which a copy is
    /// kept.
    pub fn get<C: Compute>(&mut self, compute: &mut C, key: &Key) -> Result<Answer, NoMemory>
        requires can { C.can compute.old key.now }
        requires right { AreRight (C.answer compute.old) self.old }
        ensures answer { IfOk result (λ answer. answer ≡ C.answer compute.old key.now) }
        ensures right { AreRight (C.answer compute.new) self.new }
        ensures kept { KeepsOneMore self.old self.new key.now (C.answer compute.old key.now) }
        ensures hit { IsKeyAmong self.old.kept key.now
            → C.calls compute.new ≡ C.calls compute.old }
        ensures miss { (IsKeyAmong self.old.kept key.now → ⊥)
            → RoseByOne (C.calls compute.old) (C.calls compute.new) }
        ensures same_answers { C.answer compute.new ≡ C.answer compute.old }
        ensures same_keys { (other : AnyKey) → C.can compute.old other ↔ C.can compute.new other }
    {
        if self.promote(key) {
            return self.newest().to_answer(self.alloc);
        }
        let answer = compute.compute(key)?;
        self.keep_copy(key, &answer);
        Ok(answer)
    }

    /// Keeps a copy of the answer to the key.
    fn keep_copy(&mut self, key: &Key, answer: &Answer)
        requires { IsAnswerStatus answer.now.status }
        ensures { KeepsOneMore self.old self.new key.now answer.now }
    {
        if answer.body.len() > self.most_body {
            return;
        }
        if let Ok(key) = key.clone_in(self.alloc) {
            if let Ok(answer) = ready_copy(self.alloc, answer) {
                self.keep(key, answer);
            }
        }
    }
}

/// A copy of the answer in its reply.
fn ready_copy(alloc: Global, answer: &Answer) -> Result<ReadyAnswer, NoMemory>
    requires { IsAnswerStatus answer.now.status }
    ensures { IfOk result (λ ready. ready ≡ answer.now) }
{
    ReadyAnswer::new(alloc, copy_of_answer(alloc, answer)?)
}
