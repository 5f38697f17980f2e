ghost use Rattle.std.specs.Prelude.{◌≡◌, ◌<◌, ◌+◌, ◌↔◌, ℕ, [], length, Some, None, OnOk, OnErr};
ghost use Rattle.std.specs.Prelude.{IsTrue};
ghost use Rattle.stretches.specs.Timeouts.{FirstAmong, IsFirstToYield, IsHeaviest, IsNextOver, Puts};
ghost use Rattle.stretches.specs.Timeouts.{is_heavier, is_sooner, life_at};

use crate::life::Life;
use std::alloc::Global;
use std::marker::Model;
use td_base::NoMemory;

/// The states of the connections that no worker serves, by their keys.
#[derive(Drop)]
pub struct Timeouts {
    lives: Vec<Option<Life>>,
}

impl Model for Timeouts {
    ghost use Rattle.std.specs.Prelude.{List, Option};
    ghost use Rattle.stretches.specs.declared.life.Life.{Life};

    ghost Value = { List (Option Life) };

    ghost view = { λ r. r.lives.items };
}

impl Timeouts {
    /// No connection rests.
    pub fn new(alloc: Global) -> Timeouts
        ensures { result ≡ [] }
    {
        Timeouts {
            lives: Vec::new(alloc),
        }
    }

    /// One more than the largest key that was used.
    pub fn len(&self) -> usize
        ensures { result ≡ length self.now }
    {
        self.lives.len()
    }

    /// Whether no key was used yet.
    pub fn is_empty(&self) -> bool
        ensures { IsTrue result ↔ (self.now ≡ []) }
    {
        self.lives.is_empty()
    }

    /// A connection rests at this key. Keys are small, since each below the largest takes memory.
    pub fn set(&mut self, key: usize, life: Life) -> Result<(), NoMemory>
        ensures ok { OnOk result (Puts self.old self.new key (Some life)) }
        ensures err { OnErr result ((k : ℕ) → life_at self.new k ≡ life_at self.old k) }
    {
        while self.lives.len() <= key {
            self.lives.push(None)?;
        }
        self.lives[key] = Some(life);
        Ok(())
    }

    /// No connection rests at this key.
    pub fn clear(&mut self, key: usize)
        ensures { Puts self.old self.new key None }
    {
        if let Some(life) = self.lives.get_mut(key) {
            *life = None;
        }
    }

    /// The connection to close first for a new one, if one may be closed.
    pub fn first_to_yield(&self, now: u64) -> Option<usize>
        ensures { IsFirstToYield self.now (length self.now) now result }
    {
        let mut found: Option<(usize, Life)> = None;
        for key in 0..self.lives.len() {
            found = self.sooner_of(found, key, now);
        }
        match found {
            Some((key, _)) => Some(key),
            None => None,
        }
    }

    /// The connection that was found, or the one at this key, if that is closed before it.
    #[tactic(auto, using(crate::proofs::TimeoutLemmas::step_found, crate::proofs::TimeoutLemmas::step_kept, crate::proofs::TimeoutLemmas::step_none))]
    fn sooner_of(&self, found: Option<(usize, Life)>, key: usize, now: u64) -> Option<(usize, Life)>
        requires key { key < length self.now }
        requires found { FirstAmong self.now key now found }
        ensures { FirstAmong self.now (key + 1) now result }
    {
        match self.lives[key] {
            Some(life) => {
                if is_sooner(life, found, now) {
                    Some((key, life))
                } else {
                    found
                }
            }
            None => found,
        }
    }

    /// The connection that has held most memory for the longest time, if any rests.
    pub fn heaviest(&self, now: u64) -> Option<usize>
        ensures { IsHeaviest self.now (length self.now) now result }
    {
        let mut found: Option<(usize, Life)> = None;
        for key in 0..self.lives.len() {
            if let Some(life) = self.lives[key] {
                if is_heavier(life, found, now) {
                    found = Some((key, life));
                }
            }
        }
        match found {
            Some((key, _)) => Some(key),
            None => None,
        }
    }

    /// The first connection from a key on that rested for too long.
    pub fn next_over(&self, from: usize, now: u64) -> Option<usize>
        ensures { IsNextOver self.now from now result }
    {
        for key in from..self.lives.len() {
            if let Some(life) = self.lives[key] {
                if life.is_over(now) {
                    return Some(key);
                }
            }
        }
        None
    }
}

/// Whether a connection may be closed, and before the one that was found, if any.
fn is_sooner(life: Life, found: Option<(usize, Life)>, now: u64) -> bool
    ensures { result ≡ is_sooner life found now }
{
    life.yields(now)
        && match found {
            Some((_, other)) => life.comes_before(other),
            None => true,
        }
}

/// Whether a connection weighs more than the one that was found, if any.
fn is_heavier(life: Life, found: Option<(usize, Life)>, now: u64) -> bool
    ensures { result ≡ is_heavier life found now }
{
    match found {
        Some((_, other)) => life.weight(now) > other.weight(now),
        None => true,
    }
}
