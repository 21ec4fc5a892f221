//! The order of objects by one of their values.

ghost use Rattle.std.specs.Prelude.{◌≡◌, ◌∷◌, [], OnOk, drop, IsPermutation};
ghost use Rattle.dr_meaning.specs.Query as meant;
ghost use Rattle.dr_cells.specs.Results.{first_value};
ghost use Rattle.dr_cells.specs.Views.{cells_view, lent_cell};
ghost use Rattle.dr_ordering.specs.Ordered.{in_order_by};
ghost use Rattle.dr_ordered.specs.Stretches.{stretch_order, stretch_before};

use crate::stretches::Stretch;
use dr_cells::{CellRef, Cells};
use dr_ends::{cell_at, skip};
use dr_memory::NoMemory;
use std::cmp::Ordering;

/// The order of two values: NULL, truth values, numbers, texts.
fn value_order(left: CellRef<'_>, right: CellRef<'_>) -> Ordering
    ensures { result ≡ meant.cell_order (first_value (lent_cell left.entry ∷ []))
        (first_value (lent_cell right.entry ∷ [])) }
{
    match left {
        CellRef::Null | CellRef::Count(_) => match right {
            CellRef::Null | CellRef::Count(_) => Ordering::Equal,
            CellRef::Bool(_) | CellRef::Int(_) | CellRef::Text(_) => Ordering::Less,
        },
        CellRef::Bool(a) => match right {
            CellRef::Null | CellRef::Count(_) => Ordering::Greater,
            CellRef::Bool(b) => a.cmp(&b),
            CellRef::Int(_) | CellRef::Text(_) => Ordering::Less,
        },
        CellRef::Int(a) => match right {
            CellRef::Null | CellRef::Count(_) | CellRef::Bool(_) => Ordering::Greater,
            CellRef::Int(b) => a.cmp(&b),
            CellRef::Text(_) => Ordering::Less,
        },
        CellRef::Text(a) => match right {
            CellRef::Text(b) => a.cmp(b),
            CellRef::Null | CellRef::Count(_) | CellRef::Bool(_) | CellRef::Int(_) =>
                Ordering::Greater,
        },
    }
}

/// The order of the values that stand so many cells behind the starts of two stretches.
fn order_of(cells: &Cells, item: usize, left: &Stretch, right: &Stretch) -> Ordering
    ensures { result ≡ meant.cell_order (first_value (drop item (drop (left.now).start (cells_view cells.now))))
        (first_value (drop item (drop (right.now).start (cells_view cells.now)))) }
{
    let here = skip(cells, left.start, item);
    let there = skip(cells, right.start, item);
    value_order(cell_at(cells, here), cell_at(cells, there))
}

/// The same, or its reverse.
fn directed(
    cells: &Cells,
    item: usize,
    descending: bool,
    left: &Stretch,
    right: &Stretch,
) -> Ordering
    ensures { result ≡ stretch_order (cells_view cells.now) item descending left.now right.now }
{
    if descending {
        order_of(cells, item, right, left)
    } else {
        order_of(cells, item, left, right)
    }
}

/// Puts stretches in order by these values; those that tie stay as they stand.
///
/// Errors: want of memory alone.
pub(crate) fn sort(
    all: &mut Vec<Stretch>,
    cells: &Cells,
    item: usize,
    descending: bool,
) -> Result<(), NoMemory>
    ensures same { IsPermutation all.old.items all.new.items }
    ensures sorted { OnOk result (all.new.items
        ≡ in_order_by (stretch_before (cells_view cells.now) item descending) all.old.items) }
{
    all.sort_by(|left, right| directed(cells, item, descending, left, right))?;
    Ok(())
}
