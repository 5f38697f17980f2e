ghost use Rattle.std.specs.Prelude.{◌≡◌, ◌+◌, ◌≤◌, [], ◌∷◌, length, map, MatchOption};
ghost use Rattle.std.specs.Vec.{vec_capacity};
ghost use Rattle.catalogue.specs.Order.{IsRising};
ghost use Rattle.sync_core.specs.Keeping.{order_of};
ghost use Rattle.sync_core.specs.Mirrors.{entry_name};
ghost use Rattle.sync_core.specs.Names.{put_all};

use json_forms::ListZone;
use std::cmp::Ordering;
use std::collections::VecDeque;

/// Merges the listed zones into the known ones, in a vector with room for all. If both have a zone,
/// the listed one is taken.
pub fn merged(known: Vec<ListZone>, listed: Vec<ListZone>, room: Vec<ListZone>) -> Vec<ListZone>
    requires known { IsRising (map entry_name known.items) }
    requires listed { IsRising (map entry_name listed.items) }
    requires empty { room.items ≡ [] }
    requires room { length known.items + length listed.items ≤ vec_capacity room }
    ensures { result.items ≡ put_all entry_name listed.items known.items }
{
    let mut merged = room;
    let mut known = VecDeque::from_vec(known);
    let mut listed = VecDeque::from_vec(listed);
    while let Some(zone) = lower(&mut known, &mut listed) {
        merged.push_reserved(zone);
    }
    merged
}

/// Takes the zone with the lower identifier.
fn lower(known: &mut VecDeque<ListZone>, listed: &mut VecDeque<ListZone>) -> Option<ListZone>
    requires known { IsRising (map entry_name known.old.items) }
    requires listed { IsRising (map entry_name listed.old.items) }
    ensures known { IsRising (map entry_name known.new.items) }
    ensures listed { IsRising (map entry_name listed.new.items) }
    ensures next { MatchOption result
        (put_all entry_name listed.old.items known.old.items ≡ [])
        (λ zone. put_all entry_name listed.old.items known.old.items
        ≡ zone ∷ put_all entry_name listed.new.items known.new.items) }
    ensures fewer { MatchOption result (length known.old.items ≡ 0)
        (λ _. length known.new.items + length listed.new.items + 1
        ≤ length known.old.items + length listed.old.items) }
{
    match order(known, listed) {
        Ordering::Less => known.pop_front(),
        Ordering::Equal => {
            let _ = known.pop_front();
            listed.pop_front()
        }
        Ordering::Greater => listed.pop_front(),
    }
}

/// Which of two lists has the lower first zone. An empty list has none, so the other one does.
fn order(known: &VecDeque<ListZone>, listed: &VecDeque<ListZone>) -> Ordering
    ensures { result ≡ order_of known.now.items listed.now.items }
{
    match (known.front(), listed.front()) {
        (Some(known), Some(listed)) => known.tzid.cmp(&listed.tzid),
        (Some(_), None) => Ordering::Less,
        (None, _) => Ordering::Greater,
    }
}
