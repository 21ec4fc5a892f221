//! The aggregates that merge columns of results.

ghost use Rattle.std.specs.Prelude.{◌≡◌, ◌+◌, IfOk};
ghost use Rattle.dr_rewrite.specs.Merged as meant;

use crate::numbers::{number_of, place_behind};
use crate::row_columns::aggregate_kind;
use dr_memory::NoMemory;
use dr_nested::Kind;
use dr_plan::{Aggregate, Expr, Fold, Number, TextOf, Truth};
use std::alloc::Global;

/// The value of the column of a number, by its kind.
fn column_value(kind: Kind, column: u32) -> Expr
    ensures { result ≡ meant.column_value kind column }
{
    match kind {
        Kind::Bool => Expr::Truth(Truth::Leaf(column)),
        Kind::I32 => Expr::Number(Number::Leaf(column)),
        Kind::I64 => Expr::Number(Number::Leaf(column)),
        Kind::Text => Expr::Text(TextOf::Leaf(column)),
    }
}

/// Counts are merged by SUM, all else by itself.
fn merging_fold(aggregate: &Aggregate) -> Fold
    ensures { result ≡ meant.merging_fold aggregate.now }
{
    match aggregate {
        Aggregate::Rows => Fold::Sum,
        Aggregate::Of(Fold::Count, _) => Fold::Sum,
        Aggregate::Of(fold, _) => *fold,
    }
}

/// The aggregate that merges the column of a number, which has the values of another.
fn merging_aggregate(aggregate: &Aggregate, column: u32) -> Aggregate
    ensures { result ≡ meant.merged column aggregate.now }
{
    let value = column_value(aggregate_kind(aggregate), column);
    Aggregate::Of(merging_fold(aggregate), value)
}

/// The number of an aggregate's column, behind those of so many keys.
fn column_number(keys: usize, place: usize) -> Result<u32, NoMemory>
    ensures { IfOk result (λ n. n ≡ keys + place) }
{
    let behind = place_behind(keys, place)?;
    number_of(behind)
}

/// The aggregates that merge the columns of others, behind those of so many keys.
pub(crate) fn merging_aggregates(
    alloc: Global,
    keys: usize,
    aggregates: &[Aggregate],
) -> Result<Vec<Aggregate>, NoMemory>
    ensures { IfOk result (λ v. v.items ≡ meant.merged_aggregates keys aggregates.now) }
{
    let mut merging = Vec::with_capacity(alloc, aggregates.len())?;
    'aggregates: for (place, aggregate) in aggregates.iter().enumerate() {
        let column = column_number(keys, place)?;
        merging.push(merging_aggregate(aggregate, column))?;
    }
    Ok(merging)
}

/// The numbers of the keys' columns.
pub(crate) fn key_numbers(alloc: Global, keys: &[u32]) -> Result<Vec<u32>, NoMemory>
    ensures { IfOk result (λ v. v.items ≡ meant.key_numbers keys.now) }
{
    let mut numbers = Vec::with_capacity(alloc, keys.len())?;
    'keys: for (place, _) in keys.iter().enumerate() {
        numbers.push(number_of(place)?)?;
    }
    Ok(numbers)
}
