//! The values of expressions in a row, given as the values of the plan's leaves, by their numbers: of the slots
//! alone (`slots`), and where these are the values of a row's leaves, those in the row.

ghost use Rattle.std.specs.Prelude.{◌≡◌, IfOk, List, map, option_map, true};
ghost use Rattle.std.specs.List.{list_all};
ghost use Rattle.dr_meaning.specs.Expression.{Expression, evaluate, is_true};
ghost use Rattle.dr_meaning.specs.Path.{Leaf};
ghost use Rattle.dr_meaning.specs.Record.{Node, bool_value, int_value};
ghost use Rattle.dr_plan.specs.Conjuncts.{conjuncts};
ghost use Rattle.dr_plan.specs.Fitting.{expr_fits, number_fits, text_fits, truth_fits};
ghost use Rattle.dr_plan.specs.Views.{expr_view, number_view, text_view, truth_view};
ghost use Rattle.dr_scalar.specs.OverSlots.{expr_over, number_over, tests_over, text_over, truth_over};
ghost use Rattle.dr_scalar.specs.Slots.{AreValues, slot_value};
ghost use Rattle.dr_scalar.specs.Tests.{all_true};
ghost use Rattle.dr_scalar.specs.Views.{evaluated_view, text_value_view};

use crate::evaluated::{Evaluated, value_of};
use crate::numbers::number_of;
use crate::texts::text_of;
use crate::truths::{all_are_true, truth_of};
use dr_levels::ValueRef;
use dr_memory::NoMemory;
use dr_plan::{Expr, Number, TextOf, Truth};
use std::alloc::Global;
use std::borrow::CowStr;

/// An expression's value, where it isn't NULL.
///
/// Errors: want of memory alone.
#[inline(always)]
pub fn eval<'v>(
    alloc: Global,
    expression: &'v Expr,
    row: &[Option<ValueRef<'v>>],
) -> Result<Option<Evaluated<'v>>, NoMemory>
    ensures meant { IfOk result (λ v. (ls : List Leaf) (r : Node) → AreValues ls row.now r → expr_fits ls expression.now
        ≡ true → option_map evaluated_view v ≡ evaluate (expr_view ls expression.now) r) }
    ensures slots { IfOk result (λ v. option_map evaluated_view v ≡ expr_over (slot_value row.now) expression.now) }
{
    value_of(alloc, expression, row)
}

/// A number's value, where it isn't NULL.
#[inline(always)]
pub fn number(number: &Number, row: &[Option<ValueRef<'_>>]) -> Option<i64>
    ensures meant { (ls : List Leaf) (r : Node) → AreValues ls row.now r → number_fits ls number.now ≡ true
        → option_map int_value result ≡ evaluate (number_view ls number.now) r }
    ensures slots { option_map int_value result ≡ number_over (slot_value row.now) number.now }
{
    number_of(number, row)
}

/// A text's value, where it isn't NULL: lent where it is a leaf's or a literal, and made where texts are joined.
///
/// Errors: want of memory alone.
#[inline(always)]
pub fn text<'v>(
    alloc: Global,
    text: &'v TextOf,
    row: &[Option<ValueRef<'v>>],
) -> Result<Option<CowStr<'v, Global>>, NoMemory>
    ensures meant { IfOk result (λ v. (ls : List Leaf) (r : Node) → AreValues ls row.now r → text_fits ls text.now
        ≡ true → option_map text_value_view v ≡ evaluate (text_view ls text.now) r) }
    ensures slots { IfOk result (λ v. option_map text_value_view v ≡ text_over (slot_value row.now) text.now) }
{
    text_of(alloc, text, row)
}

/// A truth value, where it isn't NULL.
///
/// Errors: want of memory alone.
#[inline(always)]
pub fn truth(
    alloc: Global,
    truth: &Truth,
    row: &[Option<ValueRef<'_>>],
) -> Result<Option<bool>, NoMemory>
    ensures meant { IfOk result (λ v. (ls : List Leaf) (r : Node) → AreValues ls row.now r → truth_fits ls truth.now
        ≡ true → option_map bool_value v ≡ evaluate (truth_view ls truth.now) r) }
    ensures slots { IfOk result (λ v. option_map bool_value v ≡ truth_over (slot_value row.now) truth.now) }
{
    truth_of(alloc, truth, row)
}

/// Whether each of the tests is true: so whether the condition is of which they are the conjuncts.
///
/// Errors: want of memory alone.
pub fn passes(
    alloc: Global,
    tests: &[Truth],
    row: &[Option<ValueRef<'_>>],
) -> Result<bool, NoMemory>
    ensures each { IfOk result (λ b. (ls : List Leaf) (r : Node) → AreValues ls row.now r
        → list_all (truth_fits ls) tests.now ≡ true → b ≡ all_true (map (truth_view ls) tests.now) r) }
    ensures condition { IfOk result (λ b. (ls : List Leaf) (r : Node) (c : Expression) → AreValues ls row.now r
        → list_all (truth_fits ls) tests.now ≡ true → map (truth_view ls) tests.now ≡ conjuncts c → b
        ≡ is_true (evaluate c r)) }
    ensures slots { IfOk result (λ b. b ≡ tests_over (slot_value row.now) tests.now) }
{
    all_are_true(alloc, tests, row)
}
