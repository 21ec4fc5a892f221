//! The objects of a record query, as cells of a result.

ghost use Rattle.std.specs.Prelude.{◌≡◌, List, filter, length, map, true, is_some, IfOk, OnOk};
ghost use Rattle.dr_meaning.specs.Path.{begins_with};
ghost use Rattle.dr_meaning.specs.Query.{RecordItem as MeantItem};
ghost use Rattle.dr_nested.specs.PathView.{step_view};
ghost use Rattle.dr_rows.specs.Known.{Known};
ghost use Rattle.dr_rows.specs.Views.{rows_view, rows_width, AreRowsOf};
ghost use Rattle.dr_mean.specs.ObjectCells.{item_cells, items_cells, TermFits, IsTermBelow, term_cells, items_in, item_in, counts_in, IsNestedIn, AreNestedIn, IsNestedList, object_in, lists_in, list_in, OverItemRow, IsItemBelow, AreItemsBelow, AreListsNested, IsListBelow, CellsJoin};
ghost use Rattle.dr_mean.specs.RowsOf.{OverRow};

use crate::items::Items;
use crate::values::{push_aggregate, push_value};
use dr_cells::Cells;
use dr_memory::NoMemory;
use dr_nested::{Path, Step};
use dr_plan::{ListPlan, ObjectPlan, RecordTerm};
use dr_rows::{Row, Rows, rows_within};
use std::alloc::Global;

/// The rows of a chain within a row, of which the chain has so many steps.
fn rows_at<'n>(
    alloc: Global,
    leaves: &[Path],
    chain: &[Step],
    depth: usize,
    row: Row<'_, 'n>,
) -> Result<Rows<'n>, NoMemory>
    requires values { length row.values.now ≡ length leaves.now }
    ensures width { IfOk result (λ t. rows_width t ≡ length leaves.now) }
    ensures rows { IfOk result (λ t. OverRow leaves.now depth row.entry (λ p whole.
        begins_with p (map step_view chain.now) ≡ true
        → AreRowsOf leaves.now (map step_view chain.now) whole t)) }
{
    rows_within(alloc, leaves, chain, depth.min(chain.len()), row)
}

/// Appends the value of an item in a row.
fn push_term(
    alloc: Global,
    leaves: &[Path],
    term: &RecordTerm,
    depth: usize,
    row: Row<'_, '_>,
    cells: &mut Cells,
) -> Result<(), NoMemory>
    requires values { length row.values.now ≡ length leaves.now }
    ensures { OnOk result (OverRow leaves.now depth row.entry (λ p whole. TermFits leaves.now term.now
        → IsTermBelow leaves.now term.now p → CellsJoin (term_cells leaves.now term.now whole) cells.old cells.new)) }
{
    match term {
        RecordTerm::Value(expression) => push_value(alloc, expression, row.values, cells),
        RecordTerm::Within(within) => push_aggregate(alloc, leaves, within, depth, row, cells),
    }
}

/// How many of some rows have an instance at the end of their chain.
fn count_present(rows: &Rows<'_>) -> usize
    ensures { result ≡ length (filter (λ (k : Known). is_some k.end) (rows_view rows.now)) }
{
    let mut count = 0;
    'rows: for number in 0..rows.len() {
        if rows.row(number).end.is_some() {
            count += 1;
        }
    }
    count
}

/// Appends the values of the items at some places in a row.
fn push_items(
    alloc: Global,
    items: Items<'_>,
    places: &[u32],
    depth: usize,
    row: Row<'_, '_>,
    cells: &mut Cells,
) -> Result<(), NoMemory>
    requires values { length row.values.now ≡ length items.leaves.now }
    ensures { OnOk result (OverItemRow items.entry depth row.entry (λ p whole.
        AreItemsBelow items.entry places.now p
        → CellsJoin (items_cells (items_in items.entry) places.now whole) cells.old cells.new)) }
{
    'places: for place in places {
        push_item(alloc, items, *place as usize, depth, row, cells)?;
    }
    Ok(())
}

/// Appends the value of the item at a place in a row, if there is one.
fn push_item(
    alloc: Global,
    items: Items<'_>,
    place: usize,
    depth: usize,
    row: Row<'_, '_>,
    cells: &mut Cells,
) -> Result<(), NoMemory>
    requires values { length row.values.now ≡ length items.leaves.now }
    ensures { OnOk result (OverItemRow items.entry depth row.entry (λ p whole.
        IsItemBelow items.entry place p
        → CellsJoin (item_cells (item_in items.entry place) whole) cells.old cells.new)) }
{
    match items.items.get(place) {
        Some(item) => push_term(alloc, items.leaves, &item.term, depth, row, cells),
        None => Ok(()),
    }
}

/// Appends how many objects each of some lists has in a row.
fn push_counts(
    alloc: Global,
    leaves: &[Path],
    lists: &Vec<ListPlan>,
    depth: usize,
    row: Row<'_, '_>,
    cells: &mut Cells,
) -> Result<(), NoMemory>
    requires values { length row.values.now ≡ length leaves.now }
    ensures { OnOk result ((items : List MeantItem) → OverRow leaves.now depth row.entry (λ p whole.
        AreListsNested items lists.now p → CellsJoin (counts_in items lists.now whole) cells.old cells.new)) }
{
    'lists: for list in lists {
        let rows = rows_at(alloc, leaves, &list.level, depth, row)?;
        cells.push_count(count_present(&rows) as u64)?;
    }
    Ok(())
}

/// Appends the object of a row, where an instance stands at the end of its chain: its items, how many objects each of
/// its lists has, and then those objects.
///
/// Errors: want of memory, or of room.
#[cycle(objects)]
pub fn push_object(
    alloc: Global,
    items: Items<'_>,
    object: &ObjectPlan,
    depth: usize,
    row: Row<'_, '_>,
    cells: &mut Cells,
) -> Result<(), NoMemory>
    requires values { length row.values.now ≡ length items.leaves.now }
    ensures { OnOk result (OverItemRow items.entry depth row.entry (λ p whole.
        IsNestedIn items.entry object.now p
        → CellsJoin (object_in items.entry object.now p whole) cells.old cells.new)) }
{
    if row.end.is_none() {
        return Ok(());
    }
    push_items(alloc, items, &object.items, depth, row, cells)?;
    push_counts(alloc, items.leaves, &object.lists, depth, row, cells)?;
    push_lists(alloc, items, &object.lists, depth, row, cells)
}

/// Appends the objects of some lists in a row.
#[cycle(objects)]
fn push_lists(
    alloc: Global,
    items: Items<'_>,
    lists: &Vec<ListPlan>,
    depth: usize,
    row: Row<'_, '_>,
    cells: &mut Cells,
) -> Result<(), NoMemory>
    requires values { length row.values.now ≡ length items.leaves.now }
    ensures { OnOk result (OverItemRow items.entry depth row.entry (λ p whole.
        AreNestedIn items.entry lists.now p → CellsJoin (lists_in items.entry lists.now whole) cells.old cells.new)) }
{
    'lists: for list in lists {
        push_list(alloc, items, list, depth, row, cells)?;
    }
    Ok(())
}

/// Appends the objects of a list in a row.
#[cycle(objects)]
fn push_list(
    alloc: Global,
    items: Items<'_>,
    list: &ListPlan,
    depth: usize,
    row: Row<'_, '_>,
    cells: &mut Cells,
) -> Result<(), NoMemory>
    requires values { length row.values.now ≡ length items.leaves.now }
    ensures { OnOk result (OverItemRow items.entry depth row.entry (λ p whole. IsListBelow list.now p
        → IsNestedList items.entry list.now → CellsJoin (list_in items.entry list.now whole) cells.old cells.new)) }
{
    let rows = rows_at(alloc, items.leaves, &list.level, depth, row)?;
    'rows: for number in 0..rows.len() {
        let instance = rows.row(number);
        push_object(
            alloc,
            items,
            &list.object,
            list.level.len(),
            instance,
            cells,
        )?;
    }
    Ok(())
}
