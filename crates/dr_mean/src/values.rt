//! The values of a plan's expressions and aggregates, as cells of a result.

ghost use Rattle.std.specs.Prelude.{◌≡◌, ◌∷◌, [], length, IfOk, OnOk};
ghost use Rattle.dr_meaning.specs.Expression.{evaluate, expression_chain};
ghost use Rattle.dr_partials.specs.Accumulators.{result_of, take_value};
ghost use Rattle.dr_plan.specs.Views.{expr_view};
ghost use Rattle.dr_cells.specs.Results.{value_cell};
ghost use Rattle.dr_group.specs.Views.{accumulator_view};
ghost use Rattle.dr_mean.specs.RowsOf.{OverValues};
ghost use Rattle.dr_mean.specs.ObjectCells.{Gathers, within_cells, OverWithin, CellsJoin};

use dr_cells::Cells;
use dr_group::{Accumulator, Gathering};
use dr_levels::ValueRef;
use dr_memory::NoMemory;
use dr_nested::Path;
use dr_paths::expression_chain;
use dr_plan::{Expr, Fold, Within};
use dr_rows::{Row, Rows, rows_within};
use dr_scalar::eval;
use std::alloc::Global;

/// Appends the value of an expression in a row.
pub fn push_value(
    alloc: Global,
    expression: &Expr,
    row: &[Option<ValueRef<'_>>],
    cells: &mut Cells,
) -> Result<(), NoMemory>
    ensures { OnOk result (OverValues row.now expression.now (λ ls r.
        CellsJoin (value_cell (evaluate (expr_view ls expression.now) r) ∷ []) cells.old cells.new)) }
{
    match eval(alloc, expression, row)? {
        Some(value) => cells.push(Some(value.lend())),
        None => cells.push(None),
    }
}

/// Takes the value of an expression in a row.
fn take(
    alloc: Global,
    gathered: &mut Accumulator,
    fold: Fold,
    expression: &Expr,
    row: &[Option<ValueRef<'_>>],
) -> Result<(), NoMemory>
    ensures { OnOk result (OverValues row.now expression.now (λ ls r. accumulator_view gathered.new
        ≡ take_value (accumulator_view gathered.old) (evaluate (expr_view ls expression.now) r))) }
{
    match eval(alloc, expression, row)? {
        Some(value) => gathered.take(alloc, Gathering::Values(fold), Some(value.lend())),
        None => gathered.take(alloc, Gathering::Values(fold), None),
    }
}

/// Appends what an aggregate has gathered.
fn push_gathered(gathered: &Accumulator, cells: &mut Cells) -> Result<(), NoMemory>
    ensures { OnOk result (CellsJoin (value_cell (result_of (accumulator_view gathered.now)) ∷ [])
        cells.old cells.new) }
{
    match gathered {
        Accumulator::Count(count) => cells.push_whole(Some(i128::from(*count))),
        Accumulator::Sum(sum) => cells.push_whole(*sum),
        Accumulator::Least(value) | Accumulator::Greatest(value) => match value {
            Some(value) => cells.push(Some(ValueRef::of(value))),
            None => cells.push(None),
        },
    }
}

/// What an aggregate gathers of an expression's values in rows.
fn gather(
    alloc: Global,
    fold: Fold,
    expression: &Expr,
    rows: &Rows<'_>,
) -> Result<Accumulator, NoMemory>
    ensures { IfOk result (Gathers fold expression.now rows.now) }
{
    let mut gathered = Accumulator::new(Gathering::Values(fold));
    'rows: for number in 0..rows.len() {
        let row = rows.row(number);
        take(alloc, &mut gathered, fold, expression, row.values)?;
    }
    Ok(gathered)
}

/// Appends what an aggregate gives of an expression's values in the rows within a row, of which the chain has so many
/// steps.
///
/// Errors: want of memory, or of room.
pub fn push_aggregate(
    alloc: Global,
    leaves: &[Path],
    within: &Within,
    depth: usize,
    row: Row<'_, '_>,
    cells: &mut Cells,
) -> Result<(), NoMemory>
    requires values { length row.values.now ≡ length leaves.now }
    ensures { OnOk result (OverWithin leaves.now within.now depth row.entry (λ whole.
        CellsJoin (within_cells leaves.now within.now whole) cells.old cells.new)) }
{
    let chain = expression_chain(leaves, &within.argument);
    let rows = rows_within(alloc, leaves, chain, depth.min(chain.len()), row)?;
    let gathered = gather(alloc, within.fold, &within.argument, &rows)?;
    push_gathered(&gathered, cells)
}
