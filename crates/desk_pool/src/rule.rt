//! The invariant of the shared word, and the kinds of step on it.
use crate::knows::Knows;
use atomic_table::{Play, Split, Table, TableRule};
use std::alloc::Global;

/// The word is 1 exactly when the flag was raised. A sign has seen it raised only if it was.
pub struct FlagRule;

impl TableRule<(), Knows, ()> for FlagRule {
    ghost use Rattle.desk_pool.specs.Flag.{Holds, owner};

    ghost holds = { λ _. Holds };

    ghost first = { λ _. owner };
}

/// The step of the flag that raises it.
pub struct Raising;

impl Play<(), Knows> for Raising {
    ghost use Rattle.desk_pool.specs.Flag.{Raises};

    ghost then = { Raises };
}

/// The step of a sign that reads the word.
pub struct Looking;

impl Play<(), Knows> for Looking {
    ghost use Rattle.desk_pool.specs.Flag.{LooksAtFlag};

    ghost then = { LooksAtFlag };
}

/// The step of the flag that makes a sign, which has seen nothing.
pub struct Sharing;

impl Split<Knows> for Sharing {
    ghost use Rattle.desk_pool.specs.Flag.{shared_left, shared_right};

    ghost left = { shared_left };

    ghost right = { shared_right };
}

/// A table of one word, without slots.
pub type Board = Table<(), Knows, (), FlagRule, Global>;
