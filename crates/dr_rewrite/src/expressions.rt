//! Expressions.

ghost use Rattle.std.specs.Prelude.{◌≡◌, ◌++◌, string_bytes, OnOk};
ghost use Rattle.dr_partials.specs.RewritingText as meant;
ghost use Rattle.dr_plan.specs.Views.{comparison_view, expr_view};
ghost use Rattle.dr_rewrite.specs.Writing.{number_null_text, number_text, numbers_compared};
ghost use Rattle.dr_rewrite.specs.Writing.{text_null_text, text_text, texts_compared, truth_text};
ghost use Rattle.dr_rewrite.specs.Writing.{written_leaves, written_path};

use crate::literals::{push_number, push_text, push_truth};
use crate::paths::{Names, push_leaf};
use dr_plan::{Comparison, Expr, Number, TextOf, Truth};
use std::alloc::AllocError;

/// Appends a number's expression.
#[cycle(numbers)]
fn push_number_of(number: &Number, names: &Names<'_>, out: &mut String) -> Result<(), AllocError>
    ensures { OnOk result (string_bytes out.new
        ≡ string_bytes out.old ++ number_text names.now number.now) }
{
    match number {
        Number::Literal(value) => push_number(*value, out),
        Number::Leaf(leaf) => push_leaf(*leaf, names, out),
        Number::Negative(operand) => {
            out.push_str("(-")?;
            push_number_of(operand, names, out)?;
            out.push_str(")")
        }
        Number::Add(left, right) => push_operation(left, " + ", right, names, out),
        Number::Subtract(left, right) => push_operation(left, " - ", right, names, out),
        Number::Multiply(left, right) => push_operation(left, " * ", right, names, out),
    }
}

/// Appends two numbers' expressions with a sign between.
#[cycle(numbers)]
fn push_operation(
    left: &Number,
    sign: &str,
    right: &Number,
    names: &Names<'_>,
    out: &mut String,
) -> Result<(), AllocError>
    ensures { OnOk result (string_bytes out.new
        ≡ string_bytes out.old ++ meant.in_parentheses
        (number_text names.now left.now ++ (sign.now ++ number_text names.now right.now))) }
{
    out.push_str("(")?;
    push_number_of(left, names, out)?;
    out.push_str(sign)?;
    push_number_of(right, names, out)?;
    out.push_str(")")
}

/// Appends a text's expression.
fn push_text_of(text: &TextOf, names: &Names<'_>, out: &mut String) -> Result<(), AllocError>
    ensures { OnOk result (string_bytes out.new
        ≡ string_bytes out.old ++ text_text names.now text.now) }
{
    match text {
        TextOf::Literal(value) => push_text(value.as_str(), out),
        TextOf::Leaf(leaf) => push_leaf(*leaf, names, out),
        TextOf::Join(left, right) => {
            out.push_str("(")?;
            push_text_of(left, names, out)?;
            out.push_str(" + ")?;
            push_text_of(right, names, out)?;
            out.push_str(")")
        }
    }
}

/// Appends a truth value's expression.
#[cycle(truths)]
pub(crate) fn push_truth_of(
    truth: &Truth,
    names: &Names<'_>,
    out: &mut String,
) -> Result<(), AllocError>
    ensures { OnOk result (string_bytes out.new
        ≡ string_bytes out.old ++ truth_text names.now truth.now) }
{
    match truth {
        Truth::Literal(value) => push_truth(*value, out),
        Truth::Leaf(leaf) => push_leaf(*leaf, names, out),
        Truth::Not(operand) => {
            out.push_str("(NOT ")?;
            push_truth_of(operand, names, out)?;
            out.push_str(")")
        }
        Truth::And(left, right) => push_joined(left, " AND ", right, names, out),
        Truth::Or(left, right) => push_joined(left, " OR ", right, names, out),
        Truth::Truths(comparison, left, right) => {
            push_joined(left, sign_of(*comparison), right, names, out)
        }
        Truth::TruthIsNull(operand) => {
            out.push_str("(")?;
            push_truth_of(operand, names, out)?;
            out.push_str(" IS NULL)")
        }
        Truth::Numbers(comparison, left, right) => {
            push_compared_numbers(*comparison, left, right, names, out)
        }
        Truth::Texts(comparison, left, right) => {
            push_compared_texts(*comparison, left, right, names, out)
        }
        Truth::Like(text, pattern) => {
            push_text_test(text, " LIKE ", pattern.as_str(), names, out)
        }
        Truth::Contains(text, part) => {
            push_text_test(text, " CONTAINS ", part.as_str(), names, out)
        }
        Truth::NumberIsNull(number) => push_number_is_null(number, names, out),
        Truth::TextIsNull(text) => push_text_is_null(text, names, out),
    }
}

/// Appends two truth values' expressions with a word or sign between.
#[cycle(truths)]
fn push_joined(
    left: &Truth,
    word: &str,
    right: &Truth,
    names: &Names<'_>,
    out: &mut String,
) -> Result<(), AllocError>
    ensures { OnOk result (string_bytes out.new
        ≡ string_bytes out.old ++ meant.in_parentheses
        (truth_text names.now left.now ++ (word.now ++ truth_text names.now right.now))) }
{
    out.push_str("(")?;
    push_truth_of(left, names, out)?;
    out.push_str(word)?;
    push_truth_of(right, names, out)?;
    out.push_str(")")
}

/// Appends an expression of any type.
pub(crate) fn push_expression(
    expression: &Expr,
    names: &Names<'_>,
    out: &mut String,
) -> Result<(), AllocError>
    ensures { OnOk result (string_bytes out.new
        ≡ string_bytes out.old ++ meant.expression_text (written_path names.now)
        (expr_view (written_leaves names.now) expression.now)) }
{
    match expression {
        Expr::Truth(truth) => push_truth_of(truth, names, out),
        Expr::Number(number) => push_number_of(number, names, out),
        Expr::Text(text) => push_text_of(text, names, out),
    }
}

/// The sign of a comparison.
fn sign_of(comparison: Comparison) -> &'static str
    ensures { result.now ≡ meant.comparison_sign (comparison_view comparison) }
{
    match comparison {
        Comparison::Equal => " = ",
        Comparison::Unequal => " <> ",
        Comparison::Less => " < ",
        Comparison::AtMost => " <= ",
        Comparison::Greater => " > ",
        Comparison::AtLeast => " >= ",
    }
}

/// Appends a comparison of two numbers.
fn push_compared_numbers(
    comparison: Comparison,
    left: &Number,
    right: &Number,
    names: &Names<'_>,
    out: &mut String,
) -> Result<(), AllocError>
    ensures { OnOk result (string_bytes out.new
        ≡ string_bytes out.old ++ numbers_compared names.now comparison left.now right.now) }
{
    out.push_str("(")?;
    push_number_of(left, names, out)?;
    out.push_str(sign_of(comparison))?;
    push_number_of(right, names, out)?;
    out.push_str(")")
}

/// Appends a comparison of two texts.
fn push_compared_texts(
    comparison: Comparison,
    left: &TextOf,
    right: &TextOf,
    names: &Names<'_>,
    out: &mut String,
) -> Result<(), AllocError>
    ensures { OnOk result (string_bytes out.new
        ≡ string_bytes out.old ++ texts_compared names.now comparison left.now right.now) }
{
    out.push_str("(")?;
    push_text_of(left, names, out)?;
    out.push_str(sign_of(comparison))?;
    push_text_of(right, names, out)?;
    out.push_str(")")
}

/// Appends a test of a number for NULL.
fn push_number_is_null(
    number: &Number,
    names: &Names<'_>,
    out: &mut String,
) -> Result<(), AllocError>
    ensures { OnOk result (string_bytes out.new
        ≡ string_bytes out.old ++ number_null_text names.now number.now) }
{
    out.push_str("(")?;
    push_number_of(number, names, out)?;
    out.push_str(" IS NULL)")
}

/// Appends a test of a text for NULL.
fn push_text_is_null(text: &TextOf, names: &Names<'_>, out: &mut String) -> Result<(), AllocError>
    ensures { OnOk result (string_bytes out.new
        ≡ string_bytes out.old ++ text_null_text names.now text.now) }
{
    out.push_str("(")?;
    push_text_of(text, names, out)?;
    out.push_str(" IS NULL)")
}

/// Appends a test of a text by a word and a literal.
fn push_text_test(
    text: &TextOf,
    word: &str,
    literal: &str,
    names: &Names<'_>,
    out: &mut String,
) -> Result<(), AllocError>
    ensures { OnOk result (string_bytes out.new
        ≡ string_bytes out.old ++ meant.in_parentheses
        (text_text names.now text.now ++ (word.now ++ meant.text_literal literal.now))) }
{
    out.push_str("(")?;
    push_text_of(text, names, out)?;
    out.push_str(word)?;
    push_text(literal, out)?;
    out.push_str(")")
}
