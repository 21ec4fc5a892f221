//! The leaves that expressions read.

ghost use Rattle.std.specs.Prelude.{◌≡◌, ◌++◌, IfOk};
ghost use Rattle.dr_scalar.specs.Leaves.{expr_leaves, number_leaves, text_leaves, truth_leaves};

use dr_memory::NoMemory;
use dr_plan::{Expr, Number, TextOf, Truth};

/// Appends the leaves of an expression.
///
/// Errors: want of memory alone.
pub fn push_leaves(expression: &Expr, out: &mut Vec<u32>) -> Result<(), NoMemory>
    ensures { IfOk result (λ done. (out.new).items ≡ (out.old).items ++ expr_leaves expression.now) }
{
    match expression {
        Expr::Truth(truth) => push_truth(truth, out),
        Expr::Number(number) => push_number(number, out),
        Expr::Text(text) => push_text(text, out),
    }
}

/// Appends the leaves of a number.
#[tactic(auto, using(crate::proofs::ReadingLemmas::number_puts))]
fn push_number(number: &Number, out: &mut Vec<u32>) -> Result<(), NoMemory>
    ensures { IfOk result (λ done. (out.new).items ≡ (out.old).items ++ number_leaves number.now) }
{
    match number {
        Number::Literal(_) => Ok(()),
        Number::Leaf(leaf) => {
            out.push(*leaf)?;
            Ok(())
        }
        Number::Negative(operand) => push_number(operand, out),
        Number::Add(left, right) | Number::Subtract(left, right) | Number::Multiply(left, right) =>
            {
                push_number(left, out)?;
                push_number(right, out)
            }
    }
}

/// Appends the leaves of a text.
#[tactic(auto, using(crate::proofs::ReadingLemmas::text_puts))]
fn push_text(text: &TextOf, out: &mut Vec<u32>) -> Result<(), NoMemory>
    ensures { IfOk result (λ done. (out.new).items ≡ (out.old).items ++ text_leaves text.now) }
{
    match text {
        TextOf::Literal(_) => Ok(()),
        TextOf::Leaf(leaf) => {
            out.push(*leaf)?;
            Ok(())
        }
        TextOf::Join(left, right) => {
            push_text(left, out)?;
            push_text(right, out)
        }
    }
}

/// Appends the leaves of a truth value.
///
/// Errors: want of memory alone.
#[tactic(auto, using(crate::proofs::ReadingLemmas::truth_puts))]
pub(crate) fn push_truth(truth: &Truth, out: &mut Vec<u32>) -> Result<(), NoMemory>
    ensures { IfOk result (λ done. (out.new).items ≡ (out.old).items ++ truth_leaves truth.now) }
{
    match truth {
        Truth::Literal(_) => Ok(()),
        Truth::Leaf(leaf) => {
            out.push(*leaf)?;
            Ok(())
        }
        Truth::Not(operand) | Truth::TruthIsNull(operand) => push_truth(operand, out),
        Truth::And(left, right) | Truth::Or(left, right) | Truth::Truths(_, left, right) => {
            push_truth(left, out)?;
            push_truth(right, out)
        }
        Truth::Numbers(_, left, right) => {
            push_number(left, out)?;
            push_number(right, out)
        }
        Truth::Texts(_, left, right) => {
            push_text(left, out)?;
            push_text(right, out)
        }
        Truth::Like(text, _) | Truth::Contains(text, _) | Truth::TextIsNull(text) => {
            push_text(text, out)
        }
        Truth::NumberIsNull(number) => push_number(number, out),
    }
}
