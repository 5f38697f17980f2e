//! Publishes that the copies refuse. What was published and shown stays, and nothing is published
//! from then on, even if the copies would accept it.
use crate::tallies::{SharedTally, make_tally, publishes};
use case_lines::{Answer, CaseFault, Row};
use publication::{FragilePublisher, Onlooker, make_fragile};
use std::alloc::Global;
use std::sync::Wait;

/// How a publisher is released.
#[derive(Clone, Copy, PartialEq, Eq)]
enum Leaving {
    Ends,
    Closes,
}

/// `publishes ONE TWO TIMES ends|closes`: the result of a publisher that publishes TIMES times,
/// over copies that refuse the calls ONE and TWO. It has how many values were published after the
/// first, the last of them, and what is found. Then whether it ended with its mark, and what is
/// found once it is gone.
pub fn publish<R: Wait>(rt: &R, alloc: Global, row: &Row) -> Answer {
    let refused = (small(row, 0)?, small(row, 1)?);
    let times = small(row, 2)?;
    let leaving = leaving_at(row)?;
    let (publisher, onlooker) = make_fragile(rt, alloc, make_tally(1), refused)?;
    outcome(rt, alloc, publisher, onlooker, times, leaving)
}

/// The number at a position, below 2 to the 32nd.
fn small(row: &Row, at: usize) -> Result<u32, CaseFault> {
    u32::try_from(row.number(at)?)
        .ok()
        .ok_or(CaseFault::Strange)
}

fn leaving_at(row: &Row) -> Result<Leaving, CaseFault> {
    match row.word(3)? {
        b"ends" => Ok(Leaving::Ends),
        b"closes" => Ok(Leaving::Closes),
        _ => Err(CaseFault::Strange),
    }
}

fn outcome<R: Wait>(
    rt: &R,
    alloc: Global,
    publisher: FragilePublisher<SharedTally>,
    onlooker: Onlooker<SharedTally>,
    times: u32,
    leaving: Leaving,
) -> Answer {
    let mut publisher = publisher;
    let published = publishes(rt, &mut publisher, times);
    let last = publisher.last().number;
    let (onlooker, found) = onlooker.look();
    let ended = leaves(rt, publisher, leaving);
    let (_, left) = onlooker.look();
    Ok(format!(in alloc; "{published} {last} {found:?} {ended} {left:?}")?.into_bytes())
}

/// Whether the publisher ended with its mark.
fn leaves<R: Wait>(rt: &R, publisher: FragilePublisher<SharedTally>, leaving: Leaving) -> bool {
    match leaving {
        Leaving::Closes => {
            publisher.close(rt);
            false
        }
        Leaving::Ends => match publisher.end(rt) {
            Ok(ended) => {
                ended.close(rt);
                true
            }
            Err(_) => false,
        },
    }
}
