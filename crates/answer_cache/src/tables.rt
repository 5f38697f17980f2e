//! The LRU table of a cache. Without a table nothing is kept.
ghost use Rattle.std.specs.Prelude.{◌≡◌, ◌↔◌, IsTrue};
ghost use Rattle.answer_cache.specs.Keeping.{AddsNone, AddsOne, IsKeyAmong, IsFirst, kept_in};
ghost use Rattle.answer_cache.specs.Keeping.{room_of};

use crate::{Key, ReadyAnswer};
use lru::LruCache;

/// Whether an answer to the key is kept. If so, it becomes the most recently used.
pub fn promote(table: &mut Option<LruCache<Key, ReadyAnswer>>, key: &Key) -> bool
    ensures found { IsTrue result ↔ IsKeyAmong (kept_in table.old) key.now }
    ensures first { IsTrue result → IsFirst (kept_in table.new) key.now }
    ensures pairs { AddsNone (kept_in table.old) (kept_in table.new) }
    ensures room { room_of table.new ≡ room_of table.old }
{
    match table {
        Some(table) => table.promote(key),
        None => false,
    }
}

/// Keeps the answer to the key, if there is memory for it.
pub fn put(table: &mut Option<LruCache<Key, ReadyAnswer>>, key: Key, answer: ReadyAnswer)
    ensures pairs { AddsOne (kept_in table.old) (kept_in table.new) key answer }
    ensures room { room_of table.new ≡ room_of table.old }
{
    if let Some(table) = table {
        drop(table.put(key, answer));
    }
}
