//! The cancellation flag, and a worker's view of it.
ghost use Rattle.std.specs.Prelude.{◌≡◌, true, false, IsTrue, IfOk};

use crate::knows::Knows;
use crate::rule::{Board, Looking, Raising, Sharing};
use atomic_table::{Seat, Table};
use std::alloc::Global;
use std::marker::Model;
use std::sync::Arc;
use td_base::NoMemory;

/// A cancellation flag, raised at most once. Contracts see which flag it is, and whether it was
/// raised.
#[derive(Drop)]
pub struct StopFlag {
    board: Arc<Board>,
    seat: Seat<(), Knows>,
}

impl Model for StopFlag {
    ghost use Rattle.std.specs.Arc.{arc_value};
    ghost use Rattle.std.specs.Prelude.{true};
    ghost use Rattle.desk_pool.specs.Flag.{IsSeated, Sight, sight};

    ghost Value = { Sight };

    ghost view = { λ f. sight f.seat.table_id f.seat.me };

    ghost invariant = { λ f.
        IsSeated true (arc_value f.board).shared.table_id f.seat.table_id f.seat.me };
}

/// A worker's view of the flag, which cannot raise it. Contracts see which flag it belongs to, and
/// whether this sign has seen it raised.
#[derive(Drop)]
pub struct StopSign {
    board: Arc<Board>,
    seat: Seat<(), Knows>,
}

impl Model for StopSign {
    ghost use Rattle.std.specs.Arc.{arc_value};
    ghost use Rattle.std.specs.Prelude.{false};
    ghost use Rattle.desk_pool.specs.Flag.{IsSeated, Sight, sight};

    ghost Value = { Sight };

    ghost view = { λ s. sight s.seat.table_id s.seat.me };

    ghost invariant = { λ s.
        IsSeated false (arc_value s.board).shared.table_id s.seat.table_id s.seat.me };
}

impl StopFlag {
    /// A flag that is not raised. Fails only when out of memory.
    pub fn new(alloc: Global) -> Result<StopFlag, NoMemory>
        ensures { IfOk result (λ f. f.raised ≡ false) }
    {
        let (table, seat) = Table::of_words(alloc, &[0], &())?;
        let board = Arc::new(alloc, table)?;
        Ok(StopFlag { board, seat })
    }

    /// A new sign of this flag, which must not be raised yet. Fails when too many signs exist.
    pub fn share(&mut self) -> Result<StopSign, NoMemory>
        requires { self.old.raised ≡ false }
        ensures flag { self.new ≡ self.old }
        ensures sign { IfOk result (λ s. s ≡ self.old) }
    {
        let board = Arc::try_clone(&self.board)?;
        let table: &Board = &board;
        let seat = table.shared.split_seat::<Sharing>(&mut self.seat);
        Ok(StopSign { board, seat })
    }

    /// Raises the flag. It stays raised.
    pub fn raise(&mut self)
        ensures raised { self.new.raised ≡ true }
        ensures flag { self.new.flag ≡ self.old.flag }
    {
        let table: &Board = &self.board;
        table.shared.store::<Raising>(&mut self.seat, 0, 1);
    }
}

impl StopSign {
    /// Reads the flag once, without waiting.
    pub fn is_raised(&mut self) -> bool
        ensures seen { result ≡ self.new.raised }
        ensures kept { self.old.raised ≡ true → IsTrue result }
        ensures flag { self.new.flag ≡ self.old.flag }
    {
        let table: &Board = &self.board;
        table.shared.load::<Looking>(&mut self.seat, 0) == 1
    }
}
