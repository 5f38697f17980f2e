//! Cached answers, by their keys.
use crate::echo::{Echo, EchoCache};
use answer_cache::{AnswerCache, Key, MOST_ANSWERS};
use case_lines::{Answer, CaseFault, Row};
use std::alloc::Global;
use td_base::{Bytes, NoMemory};

/// `get CAPACITY BOUND PLACE TARGET ACCEPT NONE ..`: the result of a get of each key of four words,
/// as a letter. It is `c` for computed, `k` for kept, and `?` if the answer is not the target. A
/// dash means no header field.
pub fn gets(alloc: Global, row: &Row) -> Answer {
    let mut kept = kept_of(alloc, row)?;
    let mut out = Vec::new(alloc);
    for number in 0..row.words().len().saturating_sub(2) / 4 {
        let key = key_at(alloc, row, number.saturating_mul(4).saturating_add(2))?;
        out.push(get(&mut kept, &key)?)?;
    }
    Ok(out)
}

/// A cache with the capacity and the bound of the row.
fn kept_of(alloc: Global, row: &Row) -> Result<EchoCache, CaseFault> {
    let (capacity, bound) = (row.number(0)? as usize, row.number(1)? as usize);
    if capacity == 0 || capacity > MOST_ANSWERS {
        return Err(CaseFault::Strange);
    }
    Ok(EchoCache {
        cache: AnswerCache::with_bound(alloc, capacity, bound)?,
        echo: Echo { alloc, calls: 0 },
    })
}

/// The key in the four words from this position on.
fn key_at(alloc: Global, row: &Row, at: usize) -> Result<Key, CaseFault> {
    let Ok(place) = u32::try_from(row.number(at)?) else {
        return Err(CaseFault::Strange);
    };
    Ok(Key {
        place,
        target: Bytes::from_slice(alloc, row.word(at.saturating_add(1))?)?,
        accept: field_of(alloc, row.word(at.saturating_add(2))?)?,
        none_match: field_of(alloc, row.word(at.saturating_add(3))?)?,
    })
}

fn field_of(alloc: Global, word: &[u8]) -> Result<Option<Bytes>, NoMemory> {
    if word == b"-".as_slice() {
        Ok(None)
    } else {
        Ok(Some(Bytes::from_slice(alloc, word)?))
    }
}

/// The letter of one get.
fn get(kept: &mut EchoCache, key: &Key) -> Result<u8, NoMemory> {
    let before = kept.echo.calls;
    let answer = kept.cache.get(&mut kept.echo, key)?;
    if answer.body.as_slice() != key.target.as_slice() {
        return Ok(b'?');
    }
    Ok(if kept.echo.calls == before {
        b'k'
    } else {
        b'c'
    })
}
