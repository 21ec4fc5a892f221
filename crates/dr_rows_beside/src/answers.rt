//! Answers of tests in rows.

ghost use Rattle.std.specs.Prelude.{◌≡◌, ◌<◌, ◌≤◌, ◌+◌, ◌++◌, [], length, map, replicate, vec_len, vec_capacity, true, false, None, IfOk, IfSome};
ghost use Rattle.std.specs.List.{list_all};
ghost use Rattle.dr_meaning.specs.Expression.{is_true};
ghost use Rattle.dr_levels.specs.Views.{triplets_view};
ghost use Rattle.dr_beside.specs.Neighbours.{column_at};
ghost use Rattle.dr_scalar.specs.OverSlots.{truth_over};
ghost use Rattle.dr_rows_beside.specs.Rows.{slot_at, slots_view, is_apart, is_fed, source_view, run};
ghost use Rattle.dr_rows_beside.specs.RowsView.{rows_view};
ghost use Rattle.dr_rows_beside.specs.Answers.{holds_in, AreAnswers};
ghost use Rattle.dr_rows_beside.specs.LeafTests.{IsLeafTest};

use crate::comparing::put_compared;
use crate::rows::Rows;
use crate::source::Source;
use dr_levels::{Triplets, ValueRef, ValuesRef};
use dr_memory::NoMemory;
use dr_plan::{Comparison, Number, Truth};
use dr_scalar::truth;
use std::alloc::Global;

/// Whether a test is true in a row: neither false nor NULL.
///
/// Errors: want of memory alone.
#[inline(always)]
fn holds(alloc: Global, test: &Truth, row: &[Option<ValueRef<'_>>]) -> Result<bool, NoMemory>
    ensures { IfOk result (λ b. b ≡ is_true (truth_over (slot_at (slots_view row.now)) test.now)) }
{
    match truth(alloc, test, row)? {
        None => Ok(false),
        Some(value) => Ok(value),
    }
}

/// Appends whether a test is true in each of some rows.
///
/// Errors: want of memory alone.
pub(crate) fn put_truths(
    alloc: Global,
    test: &Truth,
    rows: &mut Rows<'_, '_>,
    out: &mut Vec<bool>,
) -> Result<(), NoMemory>
    requires room { vec_len out.old + length (rows_view rows.old) ≤ vec_capacity out.old }
    ensures { IfOk result (λ done. (out.new).items ≡ (out.old).items ++ map (holds_in test.now) (rows_view rows.old)) }
{
    'rows: while let Some(_) = rows.next() {
        out.push_reserved(holds(alloc, test, &rows.slots)?);
    }
    Ok(())
}

/// A test of a leaf's number beside a literal.
#[derive(Clone, Copy)]
struct LeafTest {
    leaf: u32,
    comparison: Comparison,
    literal: i64,
}

/// The leaf, the comparison and the literal, where a test is of a number beside a literal.
fn leaf_test(test: &Truth) -> Option<LeafTest>
    ensures { IfSome result (IsLeafTest test.now) }
{
    match test {
        Truth::Numbers(comparison, Number::Leaf(leaf), Number::Literal(literal)) => {
            Some(LeafTest {
                leaf: *leaf,
                comparison: *comparison,
                literal: *literal,
            })
        }
        _ => None,
    }
}

/// Puts whether a test is true at each triplet of a leaf, if it is one of this leaf's number beside a literal.
fn put_quickly(test: &Truth, leaf: u32, column: Triplets<'_>, out: &mut Vec<bool>) -> bool
    requires empty { (out.old).items ≡ [] }
    requires room { length (triplets_view column) ≤ vec_capacity out.old }
    ensures put { result ≡ true → AreAnswers test.now leaf (triplets_view column.entry) (out.new).items }
    ensures items { result ≡ false → (out.new).items ≡ [] }
    ensures room { result ≡ false → vec_capacity out.new ≡ vec_capacity out.old }
{
    let Some(found) = leaf_test(test) else {
        return false;
    };
    if found.leaf != leaf {
        return false;
    }
    match column.values() {
        ValuesRef::Integers(numbers) => {
            put_compared(column, numbers, found.comparison, found.literal, out);
            true
        }
        ValuesRef::Bools(_)
        | ValuesRef::Texts {
            bytes: _,
            places: _,
        } => false,
    }
}

/// Puts whether a test is true in each of the rows of its source.
///
/// Errors: want of memory alone.
pub(crate) fn put_answers(
    alloc: Global,
    test: &Truth,
    source: &Source,
    columns: &[Triplets<'_>],
    out: &mut Vec<bool>,
) -> Result<(), NoMemory>
    requires leaf { (source.now).leaf < length columns.now }
    requires apart { is_apart (source.now).leaf
        (map (source_view (map triplets_view columns.now)) ((source.now).beside).items) ≡ true }
    requires fed { list_all (is_fed (column_at (map triplets_view columns.now) (source.now).leaf) (length columns.now))
        (map (source_view (map triplets_view columns.now)) ((source.now).beside).items) ≡ true }
    ensures { IfOk result (λ done. (out.new).items ≡ map (holds_in test.now) (run (source.now).leaf
        (map (source_view (map triplets_view columns.now)) ((source.now).beside).items)
        (replicate (length columns.now) None) (column_at (map triplets_view columns.now) (source.now).leaf))) }
{
    let column = columns[source.leaf as usize];
    out.clear();
    out.reserve(column.len())?;
    if put_quickly(test, source.leaf, column, out) {
        return Ok(());
    }
    let mut rows = Rows::new(alloc, source, columns)?;
    put_truths(alloc, test, &mut rows, out)
}
