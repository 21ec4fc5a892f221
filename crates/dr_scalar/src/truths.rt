//! Truth values.

ghost use Rattle.std.specs.Prelude.{◌≡◌, IfOk, option_map, chars};
ghost use Rattle.dr_meaning.specs.Expression as meant;
ghost use Rattle.dr_meaning.specs.Record.{bool_value};
ghost use Rattle.dr_plan.specs.Views.{comparison_view};
ghost use Rattle.dr_scalar.specs.OverSlots.{tests_over, text_over, truth_over};
ghost use Rattle.dr_scalar.specs.Slots.{slot_value};

use crate::comparing::{compare_numbers, compare_texts, compare_truths};
use crate::contains::occurs;
use crate::like::is_like;
use crate::numbers::number_of;
use crate::slots::truth_in;
use crate::texts::{text_is_null, text_of};
use dr_levels::ValueRef;
use dr_memory::NoMemory;
use dr_plan::{Comparison, TextOf, Truth};
use std::alloc::Global;

/// A truth value, where it isn't NULL.
///
/// Errors: want of memory alone.
#[cycle(truths)]
#[inline(always)]
pub(crate) fn truth_of(
    alloc: Global,
    truth: &Truth,
    row: &[Option<ValueRef<'_>>],
) -> Result<Option<bool>, NoMemory>
    ensures { IfOk result (λ v. option_map bool_value v ≡ truth_over (slot_value row.now) truth.now) }
{
    match truth {
        Truth::Literal(value) => Ok(Some(*value)),
        Truth::Leaf(leaf) => Ok(truth_in(row, *leaf)),
        _ => decided(alloc, truth, row),
    }
}

/// The same, where operands may have to be computed.
#[cycle(truths)]
fn decided(
    alloc: Global,
    truth: &Truth,
    row: &[Option<ValueRef<'_>>],
) -> Result<Option<bool>, NoMemory>
    ensures { IfOk result (λ v. option_map bool_value v ≡ truth_over (slot_value row.now) truth.now) }
{
    match truth {
        Truth::Literal(value) => Ok(Some(*value)),
        Truth::Leaf(leaf) => Ok(truth_in(row, *leaf)),
        Truth::Not(operand) => Ok(negated(truth_of(alloc, operand, row)?)),
        Truth::And(left, right) => match truth_of(alloc, left, row)? {
            Some(false) => Ok(Some(false)),
            known => Ok(both(known, truth_of(alloc, right, row)?)),
        },
        Truth::Or(left, right) => match truth_of(alloc, left, row)? {
            Some(true) => Ok(Some(true)),
            known => Ok(either(known, truth_of(alloc, right, row)?)),
        },
        Truth::Numbers(comparison, left, right) => Ok(compare_numbers(
            *comparison,
            number_of(left, row),
            number_of(right, row),
        )),
        Truth::Texts(comparison, left, right) => {
            texts_compared(alloc, *comparison, left, right, row)
        }
        Truth::Truths(comparison, left, right) => {
            let left = truth_of(alloc, left, row)?;
            Ok(compare_truths(*comparison, left, truth_of(alloc, right, row)?))
        }
        Truth::Like(text, pattern) => text_like(alloc, text, pattern.as_str(), row),
        Truth::Contains(text, part) => text_contains(alloc, text, part.as_str(), row),
        Truth::NumberIsNull(number) => Ok(Some(number_of(number, row).is_none())),
        Truth::TextIsNull(text) => Ok(Some(text_is_null(text, row))),
        Truth::TruthIsNull(operand) => Ok(Some(truth_of(alloc, operand, row)?.is_none())),
    }
}

/// NOT
#[inline(always)]
fn negated(truth: Option<bool>) -> Option<bool>
    ensures { option_map bool_value result ≡ meant.not_value (option_map bool_value truth) }
{
    match truth {
        Some(value) => Some(!value),
        None => None,
    }
}

/// AND: false where one is false, else NULL where one is NULL.
#[inline(always)]
fn both(left: Option<bool>, right: Option<bool>) -> Option<bool>
    ensures { option_map bool_value result ≡ meant.and_values (option_map bool_value left)
        (option_map bool_value right) }
{
    match (left, right) {
        (Some(false), _) | (_, Some(false)) => Some(false),
        (Some(true), Some(true)) => Some(true),
        _ => None,
    }
}

/// OR: true where one is true, else NULL where one is NULL.
#[inline(always)]
fn either(left: Option<bool>, right: Option<bool>) -> Option<bool>
    ensures { option_map bool_value result ≡ meant.or_values (option_map bool_value left)
        (option_map bool_value right) }
{
    match (left, right) {
        (Some(true), _) | (_, Some(true)) => Some(true),
        (Some(false), Some(false)) => Some(false),
        _ => None,
    }
}

/// A comparison of two texts.
#[inline]
fn texts_compared(
    alloc: Global,
    comparison: Comparison,
    left: &TextOf,
    right: &TextOf,
    row: &[Option<ValueRef<'_>>],
) -> Result<Option<bool>, NoMemory>
    ensures { IfOk result (λ v. option_map bool_value v
        ≡ meant.on_both (meant.compared (comparison_view comparison)) (text_over (slot_value row.now) left.now)
        (text_over (slot_value row.now) right.now)) }
{
    let Some(left) = text_of(alloc, left, row)? else {
        return Ok(None);
    };
    let Some(right) = text_of(alloc, right, row)? else {
        return Ok(None);
    };
    Ok(Some(compare_texts(comparison, left.as_str(), right.as_str())))
}

/// LIKE
#[inline]
fn text_like(
    alloc: Global,
    text: &TextOf,
    pattern: &str,
    row: &[Option<ValueRef<'_>>],
) -> Result<Option<bool>, NoMemory>
    ensures { IfOk result (λ v. option_map bool_value v
        ≡ meant.on_text (λ t. meant.matches (chars pattern.now) (chars t)) (text_over (slot_value row.now) text.now)) }
{
    let Some(text) = text_of(alloc, text, row)? else {
        return Ok(None);
    };
    Ok(Some(is_like(pattern, text.as_str())))
}

/// CONTAINS
#[inline]
fn text_contains(
    alloc: Global,
    text: &TextOf,
    part: &str,
    row: &[Option<ValueRef<'_>>],
) -> Result<Option<bool>, NoMemory>
    ensures { IfOk result (λ v. option_map bool_value v
        ≡ meant.on_text (meant.occurs_in part.now) (text_over (slot_value row.now) text.now)) }
{
    let Some(text) = text_of(alloc, text, row)? else {
        return Ok(None);
    };
    Ok(Some(occurs(part, text.as_str())))
}

/// Whether each of the tests is true.
pub(crate) fn all_are_true(
    alloc: Global,
    tests: &[Truth],
    row: &[Option<ValueRef<'_>>],
) -> Result<bool, NoMemory>
    ensures { IfOk result (λ b. b ≡ tests_over (slot_value row.now) tests.now) }
{
    'tests: for test in tests {
        match truth_of(alloc, test, row)? {
            Some(true) => {}
            _ => return Ok(false),
        }
    }
    Ok(true)
}
