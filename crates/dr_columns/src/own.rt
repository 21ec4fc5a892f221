//! Expressions that are a leaf's own value.

ghost use Rattle.std.specs.Prelude.{◌≡◌, ◌<◌, ◌∷◌, [], ℕ, length, map, Option, IfSome, true};
ghost use Rattle.std.specs.List.{list_all};
ghost use Rattle.dr_meaning.specs.Record.{Value};
ghost use Rattle.dr_meaning.specs.BoundExpression.{truth_type, number_type, text_type};
ghost use Rattle.dr_levels.specs.Views.{triplets_view};
ghost use Rattle.dr_beside.specs.Neighbours.{column_at};
ghost use Rattle.dr_scalar.specs.Leaves.{expr_leaves};
ghost use Rattle.dr_scalar.specs.OverSlots.{truth_over, number_over, text_over};
ghost use Rattle.dr_scalar.specs.Slots.{of_type};
ghost use Rattle.dr_rows_beside.specs.ExprRows.{value_in};
ghost use Rattle.dr_columns.specs.LeafRowsView.{leaf_left};
ghost use Rattle.dr_columns.specs.Own.{HasOwn};
ghost use Rattle.dr_rows_beside.specs.RecordRows.{rows_of};
ghost use Rattle.dr_rows_beside.specs.Rows.{source_view, is_fed, is_apart, all_apart};

use crate::leaf_rows::LeafRows;
use dr_levels::{Triplets, ValuesRef};
use dr_plan::{Expr, Number, TextOf, Truth};
use dr_rows_beside::Source;

/// Whether a truth value is a leaf's own.
fn is_truth(truth: &Truth, leaf: u32) -> bool
    ensures { result ≡ true → (read : ℕ → Option Value) → truth_over read truth.now ≡ of_type truth_type (read leaf) }
{
    match truth {
        Truth::Leaf(read) => *read == leaf,
        _ => false,
    }
}

/// Whether a number is a leaf's own.
fn is_number(number: &Number, leaf: u32) -> bool
    ensures { result ≡ true → (read : ℕ → Option Value)
        → number_over read number.now ≡ of_type number_type (read leaf) }
{
    match number {
        Number::Leaf(read) => *read == leaf,
        _ => false,
    }
}

/// Whether a text is a leaf's own.
fn is_text(text: &TextOf, leaf: u32) -> bool
    ensures { result ≡ true → (read : ℕ → Option Value) → text_over read text.now ≡ of_type text_type (read leaf) }
{
    match text {
        TextOf::Leaf(read) => *read == leaf,
        _ => false,
    }
}

/// Whether an expression's values at a leaf's triplets are the leaf's own.
pub(crate) fn is_own(expression: &Expr, leaf: u32, column: Triplets<'_>) -> bool
    ensures { result ≡ true → HasOwn expression.now leaf (triplets_view column.entry) }
{
    match (expression, column.values()) {
        (Expr::Truth(truth), ValuesRef::Bools(_)) => is_truth(truth, leaf),
        (Expr::Number(number), ValuesRef::Integers(_)) => is_number(number, leaf),
        (Expr::Text(text), ValuesRef::Texts { .. }) => is_text(text, leaf),
        _ => false,
    }
}

/// The leaf that an expression is, if it is one alone.
fn bare_leaf(expression: &Expr) -> Option<u32>
    ensures { IfSome result (λ k. expr_leaves expression.now ≡ k ∷ []) }
{
    match expression {
        Expr::Truth(Truth::Leaf(leaf)) => Some(*leaf),
        Expr::Number(Number::Leaf(leaf)) => Some(*leaf),
        Expr::Text(TextOf::Leaf(leaf)) => Some(*leaf),
        _ => None,
    }
}

/// The values of an expression in the rows of a source, where they are one leaf's own.
pub(crate) fn own_rows<'r>(
    expression: &Expr,
    source: &Source,
    columns: &[Triplets<'r>],
) -> Option<LeafRows<'r>>
    requires leaf { (source.now).leaf < length columns.now }
    requires apart { is_apart (source.now).leaf
        (map (source_view (map triplets_view columns.now)) ((source.now).beside).items) ≡ true }
    requires different { all_apart
        (map (source_view (map triplets_view columns.now)) ((source.now).beside).items) ≡ true }
    requires fed { list_all (is_fed (column_at (map triplets_view columns.now) (source.now).leaf) (length columns.now))
        (map (source_view (map triplets_view columns.now)) ((source.now).beside).items) ≡ true }
    ensures { IfSome result (λ r. leaf_left r ≡ map (value_in expression.now)
        (rows_of (source.now).leaf ((source.now).beside).items (map triplets_view columns.now))) }
{
    let Some(leaf) = bare_leaf(expression) else {
        return None;
    };
    let Some(rows) = LeafRows::of(leaf, source, columns) else {
        return None;
    };
    if is_own(expression, leaf, columns[leaf as usize]) {
        Some(rows)
    } else {
        None
    }
}
