//! Rows that aren't put yet.

ghost use Rattle.std.specs.Prelude.{◌≡◌, ◌++◌, ◌∷◌, [], length, take, OnOk, true};
ghost use Rattle.dr_cells.specs.Views.{cells_view};
ghost use Rattle.dr_group.specs.Partials.{partial_view, IsPartialOf, TakesPuts};
ghost use Rattle.dr_partials.specs.Putting.{put_all};
ghost use Rattle.dr_plan.specs.Planned.{Planned, planned_query};
ghost use Rattle.dr_scalar.specs.Slots.{slot_value};
ghost use Rattle.dr_within.specs.Takings.{taking_view, put_read};
ghost use Rattle.dr_within.specs.Late.{IsWhole, puts_view, rows_of};

use crate::keys::{lend_cell, lend_key, push_own_key};
use crate::taking::{Taking, aggregate_of, lent, taken_for, value_of};
use dr_cells::Cells;
use dr_group::Partial;
use dr_levels::ValueRef;
use dr_memory::NoMemory;
use std::alloc::Global;

/// Rows of which it isn't known yet whether they are kept: the cells of their key tuples, one row's behind another's,
/// and what was taken of each. The values are their own, for they are read at later moves.
#[derive(Drop)]
pub(crate) struct LateRows {
    /// How many cells a key tuple has.
    pub(crate) width: usize,
    pub(crate) cells: Cells,
    /// For which aggregate something was taken of each row, if for one.
    pub(crate) aggregates: Vec<Option<u32>>,
    /// The value that was taken of each row, or NULL.
    pub(crate) taken: Cells,
}

impl LateRows {
    /// No rows.
    pub(crate) fn new(alloc: Global, width: usize) -> LateRows
        ensures whole { IsWhole result }
        ensures none { rows_of result ≡ [] }
        ensures width { result.width ≡ width }
    {
        LateRows {
            width,
            cells: Cells::new(alloc),
            aggregates: Vec::new(alloc),
            taken: Cells::new(alloc),
        }
    }

    /// How many rows there are.
    #[inline(always)]
    pub(crate) fn len(&self) -> usize
        ensures { result ≡ length (rows_of self.now) }
    {
        self.aggregates.len()
    }

    /// One row more: its key tuple and what is taken, of what was read last of each leaf.
    ///
    /// Errors: want of memory, or of room for the texts.
    pub(crate) fn push(
        &mut self,
        alloc: Global,
        keys: &[u32],
        slots: &[Option<ValueRef<'_>>],
        taking: Taking<'_>,
    ) -> Result<(), NoMemory>
        ensures row { OnOk result (IsWhole self.old → (self.old).width ≡ length keys.now → rows_of self.new
            ≡ rows_of self.old ++ put_read keys.now (taking_view taking.entry) (slot_value slots.now) ∷ []) }
        ensures whole { OnOk result (IsWhole self.old → (self.old).width ≡ length keys.now → IsWhole self.new) }
        ensures width { (self.new).width ≡ (self.old).width }
    {
        let value = value_of(alloc, taking, slots)?;
        push_own_key(keys, slots, &mut self.cells)?;
        self.taken.push(lent(&value))?;
        self.aggregates.push(aggregate_of(taking))?;
        Ok(())
    }

    /// The first so many of the rows alone.
    #[inline]
    pub(crate) fn truncate(&mut self, rows: usize)
        ensures rows { IsWhole self.old → rows_of self.new ≡ take rows (rows_of self.old) }
        ensures whole { IsWhole self.old → IsWhole self.new }
        ensures width { (self.new).width ≡ (self.old).width }
    {
        if rows == 0 {
            self.clear();
            return;
        }
        self.cells.truncate(rows.saturating_mul(self.width));
        self.aggregates.truncate(rows);
        self.taken.truncate(rows);
    }

    /// Whether nothing of any row is held.
    #[inline(always)]
    fn is_clear(&self) -> bool
        ensures whole { result ≡ true → IsWhole self.now }
        ensures none { result ≡ true → rows_of self.now ≡ [] }
    {
        self.aggregates.is_empty() && self.cells.is_empty() && self.taken.is_empty()
    }

    /// Puts the rows into a partial, in order, and has none of them any more.
    ///
    /// Errors: want of memory, or of room for a count, a sum or a number of a group.
    #[inline(always)]
    pub(crate) fn put_all(&mut self, alloc: Global, partial: &mut Partial) -> Result<(), NoMemory>
        ensures puts { OnOk result ((p : Planned) → IsPartialOf p partial.old → partial_view partial.new
            ≡ put_all (planned_query p) (rows_of self.old) (partial_view partial.old)) }
        ensures of_plan { (p : Planned) → IsPartialOf p partial.old → IsPartialOf p partial.new }
        ensures none { OnOk result (rows_of self.new ≡ []) }
        ensures whole { OnOk result (IsWhole self.new) }
        ensures width { (self.new).width ≡ (self.old).width }
    {
        if self.is_clear() {
            return Ok(());
        }
        put_rows(
            alloc,
            self.width,
            &self.cells,
            &self.aggregates,
            &self.taken,
            partial,
        )?;
        self.clear();
        Ok(())
    }

    /// Has no rows any more, and no texts: their memory is used for those that come.
    #[inline(always)]
    fn clear(&mut self)
        ensures none { rows_of self.new ≡ [] }
        ensures whole { IsWhole self.new }
        ensures width { (self.new).width ≡ (self.old).width }
    {
        self.cells.clear();
        self.aggregates.clear();
        self.taken.clear();
    }
}

/// Puts rows into a partial: the cells of their key tuples, so many each, and what was taken of each for an aggregate.
fn put_rows(
    alloc: Global,
    width: usize,
    cells: &Cells,
    aggregates: &[Option<u32>],
    taken: &Cells,
    partial: &mut Partial,
) -> Result<(), NoMemory>
    ensures puts { OnOk result (TakesPuts (puts_view width (cells_view cells.now) aggregates.now (cells_view taken.now))
        partial.old partial.new) }
    ensures of_plan { (p : Planned) → IsPartialOf p partial.old → IsPartialOf p partial.new }
{
    let mut key = Vec::new(alloc);
    'rows: for (number, aggregate) in aggregates.iter().enumerate() {
        key.clear();
        lend_key(cells, number.saturating_mul(width), width, &mut key)?;
        let value = lend_cell(taken, number)?;
        partial.put(alloc, &key, taken_for(*aggregate, value))?;
    }
    Ok(())
}
