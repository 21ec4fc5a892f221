//! A result in order; and its first objects.

ghost use Rattle.std.specs.Prelude.{◌≡◌, ◌<◌, IfOk, IfSome, Some, option_map};
ghost use Rattle.dr_cells.specs.Rows.{rows_view, rows_shape};
ghost use Rattle.dr_ordering.specs.Ordered as meant;
ghost use Rattle.dr_ordering.specs.Ordered.{in_order, cut};
ghost use Rattle.dr_ordered.specs.Orders.{order_view};
ghost use Rattle.dr_ordered.specs.Stretches.{value_count};

use crate::copying::copied;
use crate::orders::sort;
use crate::stretches::stretches;
use dr_cells::RowsOut;
use dr_ends::end_of_objects;
use dr_memory::NoMemory;
use std::alloc::Global;

/// By which of an object's values a result goes, counted from 0, and whether it descends.
#[derive(Clone, Copy, PartialEq, Eq)]
pub struct Order {
    pub item: usize,
    pub descending: bool,
}

/// A result in order, where that is asked, and then cut behind so many objects, where that is. NULL comes first, or
/// last where the order descends; objects that tie stay as they stand, both ways.
///
/// Errors: want of memory alone.
pub fn arranged(
    alloc: Global,
    rows: RowsOut,
    order: Option<Order>,
    limit: Option<u64>,
) -> Result<RowsOut, NoMemory>
    requires { IfSome order (λ o. o.item < value_count (rows_shape rows)) }
    ensures rows { IfOk result (λ r. rows_view r
        ≡ meant.arranged (option_map order_view order) limit (rows_view rows)) }
    ensures shape { IfOk result (λ r. rows_shape r ≡ rows_shape rows) }
{
    match (order, limit) {
        (None, None) => Ok(rows),
        (None, Some(most)) => Ok(first(rows, most)),
        (Some(order), None) => ordered(alloc, rows, order),
        (Some(order), Some(most)) => ordered_first(alloc, rows, order, most),
    }
}

/// The objects of a result in order.
///
/// Errors: want of memory alone.
fn ordered(alloc: Global, rows: RowsOut, order: Order) -> Result<RowsOut, NoMemory>
    requires { order.item < value_count (rows_shape rows) }
    ensures rows { IfOk result (λ r. rows_view r ≡ in_order (order_view order) (rows_view rows)) }
    ensures shape { IfOk result (λ r. rows_shape r ≡ rows_shape rows) }
{
    let most = rows.count;
    ordered_first(alloc, rows, order, most)
}

/// The first so many objects of a result that is put in order; no more than these are copied.
///
/// Errors: want of memory alone.
fn ordered_first(alloc: Global, rows: RowsOut, order: Order, most: u64) -> Result<RowsOut, NoMemory>
    requires { order.item < value_count (rows_shape rows) }
    ensures rows { IfOk result (λ r. rows_view r ≡ cut (Some most) (in_order (order_view order) (rows_view rows))) }
    ensures shape { IfOk result (λ r. rows_shape r ≡ rows_shape rows) }
{
    let RowsOut {
        shape,
        cells,
        count,
    } = rows;
    let mut all = stretches(alloc, &shape, &cells, count)?;
    sort(&mut all, &cells, order.item, order.descending)?;
    all.truncate(most as usize);
    let cells = copied(alloc, &cells, &all)?;
    Ok(RowsOut::of(shape, cells, most.min(count)))
}

/// The first so many objects of a result, or all where there are no more.
fn first(rows: RowsOut, most: u64) -> RowsOut
    ensures rows { rows_view result ≡ cut (Some most) (rows_view rows) }
    ensures shape { rows_shape result ≡ rows_shape rows }
{
    if most >= rows.count {
        return rows;
    }
    let RowsOut {
        shape,
        mut cells,
        count: _,
    } = rows;
    let end = end_of_objects(&shape, &cells, most, 0).min(cells.len());
    cells.truncate(end);
    RowsOut::of(shape, cells, most)
}
