//! The columns of a result's rows, as leaves: k0, .., a0, ..

ghost use Rattle.std.specs.Prelude.{◌≡◌, ◌++◌, map, string_bytes, IfOk, OnOk};
ghost use Rattle.dr_nested.specs.PathView.{path_view};
ghost use Rattle.dr_nested.specs.Views.{kind_view};
ghost use Rattle.dr_rewrite.specs.Items.{indexed};
ghost use Rattle.dr_rewrite.specs.RowColumns as meant;

use crate::columns::{aggregate_name, key_name};
use crate::numbers::place_behind;
use dr_memory::NoMemory;
use dr_nested::{Kind, Path, Rep, Step};
use dr_plan::{Aggregate, Expr, Fold};
use std::alloc::Global;

/// The column of a place, by its name.
fn column(alloc: Global, name: String, place: usize, kind: Kind) -> Result<Path, NoMemory>
    ensures { IfOk result (λ p. path_view p ≡ meant.column_leaf (string_bytes name) place (kind_view kind)) }
{
    let mut names = Vec::new(alloc);
    names.push(name)?;
    let mut steps = Vec::new(alloc);
    steps.push(Step {
        place,
        rep: Rep::Optional,
    })?;
    Ok(Path { names, steps, kind })
}

/// The kind of a key's leaf.
fn key_kind(leaves: &[Path], key: u32) -> Kind
    ensures { kind_view result ≡ meant.key_kind (map path_view leaves.now) key }
{
    match leaves.get(key as usize) {
        Some(leaf) => leaf.kind,
        None => Kind::I64,
    }
}

/// The kind of a column that has an expression's values.
fn value_kind(expression: &Expr) -> Kind
    ensures { result ≡ meant.value_kind expression.now }
{
    match expression {
        Expr::Truth(_) => Kind::Bool,
        Expr::Number(_) => Kind::I64,
        Expr::Text(_) => Kind::Text,
    }
}

/// The kind of a column that has an aggregate's values: a count and a sum are numbers, a least and a greatest value are
/// as the argument's are.
pub(crate) fn aggregate_kind(aggregate: &Aggregate) -> Kind
    ensures { result ≡ meant.aggregate_kind aggregate.now }
{
    match aggregate {
        Aggregate::Rows => Kind::I64,
        Aggregate::Of(Fold::Count, _) => Kind::I64,
        Aggregate::Of(Fold::Sum, _) => Kind::I64,
        Aggregate::Of(Fold::Least, argument) => value_kind(argument),
        Aggregate::Of(Fold::Greatest, argument) => value_kind(argument),
    }
}

/// A key's column.
fn key_column(alloc: Global, leaves: &[Path], place: usize, key: u32) -> Result<Path, NoMemory>
    ensures { IfOk result (λ p. path_view p ≡ meant.key_column (map path_view leaves.now) place key) }
{
    let name = key_name(alloc, place)?;
    column(alloc, name, place, key_kind(leaves, key))
}

/// An aggregate's column, behind those of so many keys.
fn aggregate_column(
    alloc: Global,
    keys: usize,
    place: usize,
    aggregate: &Aggregate,
) -> Result<Path, NoMemory>
    ensures { IfOk result (λ p. path_view p ≡ meant.aggregate_column keys place aggregate.now) }
{
    let name = aggregate_name(alloc, place)?;
    let behind = place_behind(keys, place)?;
    column(alloc, name, behind, aggregate_kind(aggregate))
}

/// The columns of a result's rows: each key's, then each aggregate's.
pub(crate) fn row_columns(
    alloc: Global,
    leaves: &[Path],
    keys: &[u32],
    aggregates: &[Aggregate],
) -> Result<Vec<Path>, NoMemory>
    ensures { IfOk result (λ v. map path_view v.items
        ≡ meant.row_columns (map path_view leaves.now) keys.now aggregates.now) }
{
    let mut columns = Vec::new(alloc);
    'keys: for (place, key) in keys.iter().enumerate() {
        columns.push(key_column(alloc, leaves, place, *key)?)?;
    }
    push_aggregate_columns(alloc, keys.len(), aggregates, &mut columns)?;
    Ok(columns)
}

/// Appends the columns of aggregates, behind those of so many keys.
fn push_aggregate_columns(
    alloc: Global,
    keys: usize,
    aggregates: &[Aggregate],
    columns: &mut Vec<Path>,
) -> Result<(), NoMemory>
    ensures { OnOk result (map path_view (columns.new).items
        ≡ map path_view (columns.old).items ++ indexed (meant.aggregate_column keys) 0 aggregates.now) }
{
    'aggregates: for (place, aggregate) in aggregates.iter().enumerate() {
        columns.push(aggregate_column(alloc, keys, place, aggregate)?)?;
    }
    Ok(())
}
