//! Desks of a publisher, on separate threads and by learning.
ghost use Rattle.std.specs.Prelude.{◌≡◌};

use crate::tallies::{SharedTally, make_tally, publishes};
use case_lines::{Answer, CaseFault, debug_text};
use publication::{Desk, Publisher, make};
use std::alloc::Global;
use std::sync::Wait;
use std::thread::{Threads, join_mut};

/// The result of the enters of a desk: how many were refused, and how many went back in the
/// history.
#[derive(Clone, Copy, PartialEq, Eq)]
struct EnterCounts {
    refused: u32,
    back: u32,
}

/// Enters this many times.
fn enters(desk: &mut Desk<SharedTally>, times: u32) -> EnterCounts
    ensures { desk.new.pair ≡ desk.old.pair }
{
    let (mut refused, mut back) = (0u32, 0u32);
    for _ in 0..times {
        let last = desk.value().number;
        if desk.enter().is_err() {
            refused = refused.wrapping_add(1);
        }
        if desk.value().number < last {
            back = back.wrapping_add(1);
        }
    }
    EnterCounts { refused, back }
}

/// Two desks enter, each on a thread.
fn both_enter<R: Threads>(
    rt: &R,
    one: &mut Desk<SharedTally>,
    two: &mut Desk<SharedTally>,
) -> (EnterCounts, EnterCounts)
    ensures { (one.new.pair ≡ one.old.pair) × (two.new.pair ≡ two.old.pair) }
{
    join_mut(rt, &mut || enters(one, 20_000), &mut || enters(two, 20_000))
}

/// Two desks enter while values are published. Then the publisher ends, and both learn its end.
fn race_for<R: Threads + Wait + Sync>(
    rt: &R,
    publisher: Publisher<SharedTally>,
    one: Desk<SharedTally>,
    two: Desk<SharedTally>,
) -> Option<(u32, (EnterCounts, EnterCounts), u32, u32)>
    requires { (one.pair ≡ publisher.pair) × (two.pair ≡ publisher.pair) }
{
    let (mut publisher, mut one, mut two) = (publisher, one, two);
    let (done, found) = join_mut(
        rt,
        &mut || publishes(rt, &mut publisher, 2_000),
        &mut || both_enter(rt, &mut one, &mut two),
    );
    let Ok(ended) = publisher.end(rt) else {
        return None;
    };
    let mut ended = ended;
    let (mine, theirs) = (ended.receipt(), ended.receipt());
    let (Ok(mine), Ok(theirs)) = (mine, theirs) else {
        ended.close(rt);
        return None;
    };
    one.learn(mine);
    two.learn(theirs);
    let entered = one.enter().is_ok() && two.enter().is_ok();
    ended.close(rt);
    if !entered || one.enter().is_ok() {
        return None;
    }
    Some((done, found, one.value().number, two.value().number))
}

/// `race`: how many of 2,000 values were published while two desks entered 20,000 times each. Then
/// how many of their enters were refused or went back, and what both hold at the end.
pub fn race<R: Threads + Wait + Sync>(rt: &R, alloc: Global) -> Answer {
    let Ok((publisher, desks)) = make(rt, alloc, make_tally(1), 2) else {
        return Err(CaseFault::NoMemory);
    };
    let mut desks = desks;
    let two = desks.pop().unwrap();
    let one = desks.pop().unwrap();
    match race_for(rt, publisher, one, two) {
        Some((done, (mine, theirs), one, two)) => debug_text(
            alloc,
            &[
                done,
                mine.refused,
                mine.back,
                theirs.refused,
                theirs.back,
                one,
                two,
            ],
        ),
        None => Err(CaseFault::NoMemory),
    }
}

/// Publishes two values. One desk learns the later receipt first and then the earlier one; the
/// other learns nothing. Returns what they hold after each of these, and after an enter.
fn values_held<R: Wait>(
    rt: &R,
    publisher: &mut Publisher<SharedTally>,
    one: &mut Desk<SharedTally>,
    two: &mut Desk<SharedTally>,
) -> Option<[u32; 5]>
    requires { one.old.pair ≡ publisher.old.pair }
{
    let number = publisher.last().number;
    if number >= 1_000 {
        return None;
    }
    let Ok(earlier) = publisher.publish(rt, make_tally(number + 1)) else {
        return None;
    };
    let number = publisher.last().number;
    if number >= 1_000 {
        return None;
    }
    let Ok(later) = publisher.publish(rt, make_tally(number + 1)) else {
        return None;
    };
    one.learn(later);
    let (learnt, held) = (one.value().number, two.value().number);
    one.learn(earlier);
    let kept = one.value().number;
    if one.enter().is_err() || two.enter().is_err() {
        return None;
    }
    Some([learnt, held, kept, one.value().number, two.value().number])
}

/// `learns`: what two desks hold of three values. One learns the last and then the second, the
/// other nothing. Prints the first desk, the other one, the first after the second receipt, and
/// both after an enter.
pub fn learns<R: Wait>(rt: &R, alloc: Global) -> Answer {
    let Ok((publisher, desks)) = make(rt, alloc, make_tally(1), 2) else {
        return Err(CaseFault::NoMemory);
    };
    let (mut publisher, mut desks) = (publisher, desks);
    let mut two = desks.pop().unwrap();
    let mut one = desks.pop().unwrap();
    let found = values_held(rt, &mut publisher, &mut one, &mut two);
    publisher.close(rt);
    match found {
        Some(numbers) => debug_text(alloc, &numbers),
        None => Err(CaseFault::NoMemory),
    }
}
