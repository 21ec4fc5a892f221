//! The values of a level's own items, as cells of an object.

ghost use Rattle.std.specs.Prelude.{◌≡◌, ◌++◌, ◌∷◌, [], ℕ, List, Some, IfOk, OnOk};
ghost use Rattle.dr_cells.specs.Results.{value_cell};
ghost use Rattle.dr_cells.specs.Views.{cells_view};
ghost use Rattle.dr_group.specs.Views.{accumulator_view};
ghost use Rattle.dr_meaning.specs.Path.{Leaf};
ghost use Rattle.dr_made_laws.specs.ObjectFlow.{Made, ReadItem, gathered, items_of, values_for};
ghost use Rattle.dr_partials.specs.Accumulators.{accumulated, result_of};
ghost use Rattle.dr_plan.specs.Views.{fold_view};
ghost use Rattle.dr_scalar.specs.OverSlots.{expr_over};
ghost use Rattle.dr_scalar.specs.Slots.{slot_value};
ghost use Rattle.dr_within.specs.ObjectFraming.{accumulated_for, AreReadItems, HoldsValues, OverMadeFor};
ghost use Rattle.dr_within.specs.OwnCells.{item_cells, own_cells};

use crate::within_values::WithinValues;
use dr_cells::Cells;
use dr_group::{Accumulator, Gathering};
use dr_levels::ValueRef;
use dr_memory::NoMemory;
use dr_plan::{Expr, Fold, RecordItem, RecordTerm, Within};
use dr_scalar::{eval, last_leaf};
use std::alloc::Global;

/// Appends the value of an expression by what was read last of each leaf.
fn push_value(
    alloc: Global,
    expression: &Expr,
    slots: &[Option<ValueRef<'_>>],
    cells: &mut Cells,
) -> Result<(), NoMemory>
    ensures { OnOk result (cells_view cells.new
        ≡ cells_view cells.old ++ value_cell (expr_over (slot_value slots.now) expression.now) ∷ []) }
{
    match eval(alloc, expression, slots)? {
        Some(value) => cells.push(Some(value.lend())),
        None => cells.push(None),
    }
}

/// Appends what an aggregate has gathered.
fn push_gathered(gathered: &Accumulator, cells: &mut Cells) -> Result<(), NoMemory>
    ensures { OnOk result (cells_view cells.new
        ≡ cells_view cells.old ++ value_cell (result_of (accumulator_view gathered.now)) ∷ []) }
{
    match gathered {
        Accumulator::Count(count) => cells.push_whole(Some(i128::from(*count))),
        Accumulator::Sum(sum) => cells.push_whole(*sum),
        Accumulator::Least(value) | Accumulator::Greatest(value) => match value {
            Some(value) => cells.push(Some(ValueRef::of(value))),
            None => cells.push(None),
        },
    }
}

/// What an aggregate gathers of one value of an expression.
fn gathered_once(
    alloc: Global,
    fold: Fold,
    expression: &Expr,
    slots: &[Option<ValueRef<'_>>],
) -> Result<Accumulator, NoMemory>
    ensures { IfOk result (λ x. accumulator_view x ≡ accumulated (fold_view fold)
        (expr_over (slot_value slots.now) expression.now ∷ [])) }
{
    let mut gathered = Accumulator::new(Gathering::Values(fold));
    match eval(alloc, expression, slots)? {
        Some(value) => gathered.take(alloc, Gathering::Values(fold), Some(value.lend()))?,
        None => {}
    }
    Ok(gathered)
}

/// What an aggregate has gathered in an instance: the values that were taken for it, or the one of an expression
/// without leaves.
fn gathered_of(
    alloc: Global,
    item: u32,
    within: &Within,
    slots: &[Option<ValueRef<'_>>],
    values: &WithinValues,
) -> Result<Accumulator, NoMemory>
    ensures { IfOk result (λ x. OverMadeFor item (fold_view (within.now).fold) values.now (λ made.
        accumulator_view x ≡ accumulated_for within.now (slot_value slots.now) (values_for item made))) }
{
    match last_leaf(&within.argument) {
        Some(_) => values.gathered(alloc, item, within.fold),
        None => gathered_once(alloc, within.fold, &within.argument, slots),
    }
}

/// Appends the value of the item at a place.
fn push_item(
    alloc: Global,
    items: &[RecordItem],
    item: u32,
    slots: &[Option<ValueRef<'_>>],
    values: &WithinValues,
    cells: &mut Cells,
) -> Result<(), NoMemory>
    ensures { OnOk result ((ls : List Leaf) (rs : List ReadItem) (made : List Made) → AreReadItems ls items.now rs
        → HoldsValues (items_of rs) made values.now → cells_view cells.new
        ≡ cells_view cells.old ++ item_cells rs (slot_value slots.now) made item) }
{
    let Some(found) = items.get(item as usize) else {
        return Ok(());
    };
    match &found.term {
        RecordTerm::Value(expression) => push_value(alloc, expression, slots, cells),
        RecordTerm::Within(within) => {
            let gathered = gathered_of(alloc, item, within, slots, values)?;
            push_gathered(&gathered, cells)
        }
    }
}

/// Appends the values of the items at some places, in order.
///
/// Errors: want of memory, or of room.
pub(crate) fn push_own(
    alloc: Global,
    items: &[RecordItem],
    places: &[u32],
    slots: &[Option<ValueRef<'_>>],
    values: &WithinValues,
    cells: &mut Cells,
) -> Result<(), NoMemory>
    ensures { OnOk result ((ls : List Leaf) (rs : List ReadItem) (made : List Made) → AreReadItems ls items.now rs
        → HoldsValues (items_of rs) made values.now → cells_view cells.new
        ≡ cells_view cells.old ++ own_cells rs (slot_value slots.now) made places.now) }
{
    'places: for place in places {
        push_item(alloc, items, *place, slots, values, cells)?;
    }
    Ok(())
}
