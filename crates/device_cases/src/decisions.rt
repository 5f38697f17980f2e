//! What a door decides about the connections that it keeps.
use case_lines::{Answer, AnswerBuilder, CaseFault, Row, debug_text};
use std::alloc::Global;
use stretches::{
    FailureWindow, Life, Phase, Queue, Shared, Timeouts, Waiting, WorkerTurn, is_costly,
    is_long_turn, turn_limit,
};

/// How many words of a row describe what a connection waits for, and since when.
const LIFE_WORDS: usize = 5;

/// The most connections of a row.
const MOST_LIVES: usize = 16;

/// `timeouts NOW (PHASE MOVED TURNED HELD SINCE)..`: the connection that is the first to be evicted
/// for a new one, and the one that has held most memory for the longest time. Then the first over
/// its time limit. They are counted from 0.
pub fn timeouts(alloc: Global, row: &Row) -> Answer {
    let now = row.number(0)?;
    let mut timeouts = Timeouts::new(alloc);
    for key in 0..MOST_LIVES {
        if row.words().len() < (key + 1) * LIFE_WORDS + 1 {
            break;
        }
        timeouts.set(key, life(row, key * LIFE_WORDS + 1)?)?;
    }
    debug_text(
        alloc,
        &(
            timeouts.first_to_yield(now),
            timeouts.heaviest(now),
            timeouts.next_over(0, now),
        ),
    )
}

/// What a connection waits for, from the words from a position on.
fn life(row: &Row, at: usize) -> Result<Life, CaseFault> {
    let since = row.number(at.saturating_add(4))?;
    Ok(Life {
        phase: phase(row.text(at)?, since)?,
        moved: row.number(at.saturating_add(1))?,
        turned: row.number(at.saturating_add(2))?,
        held: row.number(at.saturating_add(3))?,
        since,
    })
}

/// A phase by its name. A head began when memory was first held.
fn phase(name: &str, since: u64) -> Result<Phase, CaseFault> {
    match name {
        "silent" => Ok(Phase::Silent),
        "idle" => Ok(Phase::Idle),
        "hearing" => Ok(Phase::Hearing(since)),
        "sending" => Ok(Phase::Sending),
        "leaving" => Ok(Phase::Leaving),
        "ready" => Ok(Phase::Ready),
        _ => Err(CaseFault::Strange),
    }
}

/// `queues MICROS TURNS QUEUE..`: runs TURNS turns, each of MICROS microseconds, and prints how
/// many turns each queue had. In the named queues a connection always waits. In the others none
/// waits until half of the turns are over.
pub fn queues(alloc: Global, row: &Row) -> Answer {
    let (micros, turns) = (row.number(0)?, row.number(1)?);
    let (half, named) = (turns - turns / 2, waiting(row));
    let mut shared = Shared::NONE;
    let mut counts = (0u64, 0u64, 0u64);
    for turn in 0..turns {
        let now = if turn < half { named } else { ALL_WAIT };
        let Some(queue) = shared.next(now) else {
            continue;
        };
        shared.serve(queue, now);
        shared.charge(queue, micros);
        count(&mut counts, queue);
    }
    debug_text(alloc, &counts)
}

/// A connection waits in each queue.
const ALL_WAIT: Waiting = Waiting {
    fresh: true,
    light: true,
    heavy: true,
};

/// The queues in which a connection waits, by their names.
fn waiting(row: &Row) -> Waiting {
    Waiting {
        fresh: names(row, b"fresh"),
        light: names(row, b"light"),
        heavy: names(row, b"heavy"),
    }
}

/// Whether a row has this word.
fn names(row: &Row, name: &[u8]) -> bool {
    for word in row.words() {
        if word.as_slice() == name {
            return true;
        }
    }
    false
}

/// Counts one more turn of a queue.
fn count(counts: &mut (u64, u64, u64), queue: Queue) {
    match queue {
        Queue::Fresh => counts.0 = counts.0.saturating_add(1),
        Queue::Light => counts.1 = counts.1.saturating_add(1),
        Queue::Heavy => counts.2 = counts.2.saturating_add(1),
    }
}

/// `turn BEGAN LIMIT SEEN RAN`: whether a turn is over by the clock, and what it cost when its
/// thread ran for RAN.
pub fn turn(alloc: Global, row: &Row) -> Answer {
    let (began, limit) = (row.number(0)?, row.number(1)?);
    let (seen, ran) = (row.number(2)?, row.number(3)?);
    let mut turn = WorkerTurn::new(began, limit);
    turn.see(seen);
    debug_text(alloc, &(turn.is_spent(), turn.cost(seen, ran)))
}

/// `limit OTHERS`: for how long a connection of each queue is served in which so many others wait:
/// of new ones, of those with quick requests, and of those with costly ones.
pub fn limit(alloc: Global, row: &Row) -> Answer {
    let others = row.number(0)?;
    let limits = (
        turn_limit(Queue::Fresh, others),
        turn_limit(Queue::Light, others),
        turn_limit(Queue::Heavy, others),
    );
    debug_text(alloc, &limits)
}

/// `long MICROS LEFT`: whether a turn was a long one that took so long, and left so many requests
/// unserved.
pub fn long(alloc: Global, row: &Row) -> Answer {
    debug_text(alloc, &is_long_turn(row.number(0)?, row.number(1)? > 0))
}

/// `costly BYTES`: whether received bytes request something costly.
pub fn costly(alloc: Global, row: &Row) -> Answer {
    debug_text(alloc, &is_costly(row.word(0)?))
}

/// `failures MILLIS..`: how many of the failures at these times are counted after each, and whether
/// the door is broken then.
pub fn failures(alloc: Global, row: &Row) -> Answer {
    let mut window = FailureWindow::NONE;
    let mut builder = AnswerBuilder::new(alloc);
    for at in 0..row.words().len() {
        window.fail(row.number(at)?);
        builder.add_display(&window.count);
        builder.add_bytes(b" ");
    }
    builder.add_debug(&window.is_broken());
    builder.finish()
}
