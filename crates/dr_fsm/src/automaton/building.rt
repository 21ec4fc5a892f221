//! Building automata, and following them.

ghost use Rattle.std.specs.Prelude.{◌≡◌, ◌<◌, ℕ, Some, length, map, All, IfOk};
ghost use Rattle.dr_nested.specs.Views.{fields_view};
ghost use Rattle.dr_nested.specs.PathView.{path_view};
ghost use Rattle.dr_fsm.specs.Tables.{paths_at, state_view};
ghost use Rattle.dr_fsm.specs.Automata.{order_of, leaves_of, follow, IsAutomatonOf, EndsBehindLast};

use super::{Automaton, Order};
use crate::state::State;
use crate::table::{look_up, table_of};
use dr_levels::{reading_order, schema_order};
use dr_nested::{NoMemory, Path, Schema};
use std::alloc::Global;

fn leaf_order(
    alloc: Global,
    schema: &Schema,
    fields: &[Path],
    order: Order,
) -> Result<Vec<usize>, NoMemory>
    ensures order { IfOk result (λ v. v.items
        ≡ order_of order (fields_view (schema.now).fields.items) (map (λ (p : Path). (path_view p).path) fields.now)) }
    ensures within { IfOk result (λ v. All (λ i. i < length fields.now) v.items) }
{
    match order {
        Order::BySchema => schema_order(alloc, schema, fields),
        Order::Reading => reading_order(alloc, schema, fields),
    }
}

impl Automaton {
    /// The automaton of the selected leaves of a schema, in an order.
    ///
    /// Errors: want of memory, also where there are more than 4,294,967,295 leaves, as no schema has.
    pub fn build(
        alloc: Global,
        schema: &Schema,
        fields: &[Path],
        order: Order,
    ) -> Result<Automaton, NoMemory>
        ensures order { IfOk result (λ a. leaves_of a
            ≡ order_of order (fields_view (schema.now).fields.items)
            (map (λ (p : Path). (path_view p).path) fields.now)) }
        ensures next { IfOk result (λ a. IsAutomatonOf a
            (paths_at (map (λ (p : Path). (path_view p).path) fields.now) (leaves_of a))) }
        ensures ends { IfOk result (λ a. EndsBehindLast a
            (paths_at (map (λ (p : Path). (path_view p).path) fields.now) (leaves_of a))) }
        ensures within { IfOk result (λ a. All (λ i. i < length fields.now) (leaves_of a)) }
    {
        let order = leaf_order(alloc, schema, fields, order)?;
        if order.len() > u32::MAX as usize {
            return Err(NoMemory);
        }
        match table_of(alloc, fields, &order) {
            Ok(rows) => Ok(Automaton { order, rows }),
            Err(_) => Err(NoMemory),
        }
    }

    /// The automaton's leaves in its order, each by its place in the selection.
    pub fn leaves(&self) -> &[usize]
        ensures { result.now ≡ leaves_of self.now }
    {
        self.order.as_slice()
    }

    /// Where a level leads from a leaf. From a leaf that isn't there, and by a level above the leaf's greatest
    /// repetition level, it is the end.
    pub fn next(&self, leaf: u32, level: u32) -> State
        ensures state { state_view result ≡ follow self.now leaf level }
        ensures within { (j : ℕ) → state_view result ≡ Some j → j < length (leaves_of self.now) }
    {
        look_up(&self.rows, leaf as usize, level as usize)
    }
}
