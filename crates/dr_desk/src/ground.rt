ghost use Rattle.std.specs.Prelude.{◌≡◌, IfOk};

use crate::rule::{Place, SeatTable};
use dr_board::NoMemory;
use std::alloc::Global;
use std::marker::Model;

/// What a desk is made on: the table beside its lock, with the seat of its keeper. It is made first, since the lock's
/// value names the table.
#[derive(Drop)]
pub struct Ground {
    pub(crate) table: SeatTable,
    pub(crate) keeper: Place,
}

impl Model for Ground {
    ghost use Rattle.std.specs.Prelude.{◌≡◌, []};
    ghost use Rattle.dr_desk.specs.Grounds.{GroundShown, ground_coded};

    ghost Value = { GroundShown };

    ghost coded = { ground_coded };

    ghost use Rattle.dr_desk.specs.Rule.{IsKeeperSeat};

    ghost view = { λ g. record { table = g.table.shared.table_id; tablets = g.table.shared.key } };

    ghost invariant = { λ g. (g.table.shared.table_id.words ≡ 2)
        × IsKeeperSeat g.table.shared.table_id g.keeper.table_id g.keeper.me [] };
}

impl Ground {
    /// A ground for one desk, of a job of so many tablets.
    ///
    /// Errors: want of memory alone.
    pub fn new(alloc: Global, tablets: usize) -> Result<Ground, NoMemory>
        ensures words { IfOk result (λ g. g.table.words ≡ 2) }
        ensures tablets { IfOk result (λ g. g.tablets ≡ tablets) }
    {
        let (table, keeper) = SeatTable::of_words(alloc, &[0, 0], &(tablets as u64))?;
        Ok(Ground { table, keeper })
    }
}
