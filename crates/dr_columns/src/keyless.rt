//! What is put of the rows of a leaf where there are no keys: all rows are of one group.

ghost use Rattle.std.specs.Prelude.{◌≡◌, [], map, Some, IfOk};
ghost use Rattle.std.specs.List.{slice_get};
ghost use Rattle.dr_levels.specs.Views.{triplets_view};
ghost use Rattle.dr_group.specs.Maps.{gatherings_view, tuples_view};
ghost use Rattle.dr_rows_beside.specs.ExprRows.{value_in};
ghost use Rattle.dr_columns.specs.Numbers.{HasPut};
ghost use Rattle.dr_columns.specs.RowPuts.{puts_in};
ghost use Rattle.dr_rows_beside.specs.RowsView.{rows_view};
ghost use Rattle.dr_columns.specs.Takings.{taking_view, fired_view, fired_rows, taking_puts, source_puts, CanFire};

use crate::firing::Fired;
use crate::numbering::short_number;
use crate::own::is_own;
use crate::taking::{Taking, put_many, put_taken};
use dr_group::{GroupMap, Many};
use dr_levels::Triplets;
use dr_memory::NoMemory;
use dr_plan::{Aggregate, Expr};
use dr_rows_beside::Rows;
use std::alloc::Global;

/// Takes the value of an expression in each of some rows.
///
/// Errors: want of memory, or of room for a count or a sum.
fn take_each_row<'a>(
    alloc: Global,
    aggregate: u32,
    expression: &'a Expr,
    rows: &mut Rows<'a, '_>,
    group: u32,
    groups: &mut GroupMap,
) -> Result<(), NoMemory>
    requires { slice_get (tuples_view groups.old) group ≡ Some [] }
    ensures put { IfOk result (λ done. HasPut groups.old
        (puts_in [] aggregate (value_in expression.now) (rows_view rows.old)) groups.new) }
    ensures gatherings { gatherings_view groups.new ≡ gatherings_view groups.old }
    ensures tuples { tuples_view groups.new ≡ tuples_view groups.old }
{
    'rows: while let Some(_) = rows.next() {
        put_taken(alloc, aggregate, expression, &rows.slots, group, groups)?;
    }
    Ok(())
}

/// Takes the rows of a leaf for an aggregate: at once, where its values are the leaf's own.
///
/// Errors: want of memory, or of room for a count or a sum.
fn take_rows_for<'r>(
    alloc: Global,
    fired: &Fired<'r>,
    taking: Taking<'r>,
    columns: &[Triplets<'r>],
    group: u32,
    groups: &mut GroupMap,
) -> Result<(), NoMemory>
    requires fires { CanFire (map triplets_view columns.now) (fired_view fired.now) }
    requires group { slice_get (tuples_view groups.old) group ≡ Some [] }
    ensures put { IfOk result (λ done. HasPut groups.old (taking_puts []
        (fired_rows (map triplets_view columns.now) (fired_view fired.now)) (taking_view taking.entry)) groups.new) }
    ensures gatherings { gatherings_view groups.new ≡ gatherings_view groups.old }
    ensures tuples { tuples_view groups.new ≡ tuples_view groups.old }
{
    let leaf = fired.source.leaf;
    let column = columns[leaf as usize];
    match taking.aggregate {
        Aggregate::Rows => {
            put_many(
                alloc,
                taking.number,
                Many::Nulls(column.len()),
                group,
                groups,
            )
        }
        Aggregate::Of(_, expression) => {
            if is_own(expression, leaf, column) {
                return put_many(alloc, taking.number, Many::Column(column), group, groups);
            }
            let mut rows = Rows::new(alloc, &fired.source, columns)?;
            take_each_row(alloc, taking.number, expression, &mut rows, group, groups)
        }
    }
}

/// Takes the rows of a leaf, if there are any: into their one group, then for each aggregate.
///
/// Errors: want of memory, or of room for a count, a sum or a number of a group.
pub(crate) fn take_keyless<'r>(
    alloc: Global,
    fired: &Fired<'r>,
    columns: &[Triplets<'r>],
    groups: &mut GroupMap,
) -> Result<(), NoMemory>
    requires { CanFire (map triplets_view columns.now) (fired_view fired.now) }
    ensures put { IfOk result (λ done. HasPut groups.old
        (source_puts [] (map triplets_view columns.now) (fired_view fired.now)) groups.new) }
    ensures gatherings { gatherings_view groups.new ≡ gatherings_view groups.old }
{
    if columns[fired.source.leaf as usize].len() == 0 {
        return Ok(());
    }
    let group = short_number(groups.group_of(alloc, &[])?)?;
    'takings: for taking in &fired.takings {
        take_rows_for(alloc, fired, *taking, columns, group, groups)?;
    }
    Ok(())
}
