//! The leaf of an expression that is read last.
//!
//! A plan's leaves are in the order in which their columns are read: of several, the one with the greatest number is
//! read last.

ghost use Rattle.std.specs.Prelude.{◌≡◌};
ghost use Rattle.dr_scalar.specs.Leaves.{
  expr_leaves,
  greater,
  greatest,
  number_leaves,
  tests_leaves,
  text_leaves,
  truth_leaves,
};

use dr_plan::{Expr, Number, TextOf, Truth};

/// The leaf in an expression that is read last: as a plan's leaves are in reading order, the greatest number of a leaf
/// in it. There is none where no leaf is in it.
pub fn last_leaf(expression: &Expr) -> Option<u32>
    ensures { result ≡ greatest (expr_leaves expression.now) }
{
    match expression {
        Expr::Truth(truth) => last_in_truth(truth),
        Expr::Number(number) => last_in_number(number),
        Expr::Text(text) => last_in_text(text),
    }
}

/// The leaf in some tests that is read last: the greatest number of a leaf in one of them, where there is such.
pub fn last_leaf_of_tests(tests: &[Truth]) -> Option<u32>
    ensures { result ≡ greatest (tests_leaves tests.now) }
{
    let mut last = None;
    'tests: for test in tests {
        last = later(last, last_in_truth(test));
    }
    last
}

#[tactic(auto, using(crate::proofs::LastLemmas::number_operands))]
fn last_in_number(number: &Number) -> Option<u32>
    ensures { result ≡ greatest (number_leaves number.now) }
{
    match number {
        Number::Literal(_) => None,
        Number::Leaf(leaf) => Some(*leaf),
        Number::Negative(operand) => last_in_number(operand),
        Number::Add(left, right) => later(last_in_number(left), last_in_number(right)),
        Number::Subtract(left, right) => later(last_in_number(left), last_in_number(right)),
        Number::Multiply(left, right) => later(last_in_number(left), last_in_number(right)),
    }
}

#[tactic(auto, using(crate::proofs::LastLemmas::text_operands))]
fn last_in_text(text: &TextOf) -> Option<u32>
    ensures { result ≡ greatest (text_leaves text.now) }
{
    match text {
        TextOf::Literal(_) => None,
        TextOf::Leaf(leaf) => Some(*leaf),
        TextOf::Join(left, right) => later(last_in_text(left), last_in_text(right)),
    }
}

#[tactic(auto, using(crate::proofs::LastLemmas::truth_operands))]
fn last_in_truth(truth: &Truth) -> Option<u32>
    ensures { result ≡ greatest (truth_leaves truth.now) }
{
    match truth {
        Truth::Literal(_) => None,
        Truth::Leaf(leaf) => Some(*leaf),
        Truth::Not(operand) | Truth::TruthIsNull(operand) => last_in_truth(operand),
        Truth::And(left, right) => later(last_in_truth(left), last_in_truth(right)),
        Truth::Or(left, right) => later(last_in_truth(left), last_in_truth(right)),
        Truth::Truths(_, left, right) => later(last_in_truth(left), last_in_truth(right)),
        Truth::Numbers(_, left, right) => later(last_in_number(left), last_in_number(right)),
        Truth::Texts(_, left, right) => later(last_in_text(left), last_in_text(right)),
        Truth::Like(text, _) | Truth::Contains(text, _) | Truth::TextIsNull(text) => {
            last_in_text(text)
        }
        Truth::NumberIsNull(number) => last_in_number(number),
    }
}

/// The one of two leaves that is read later, where there are such.
fn later(left: Option<u32>, right: Option<u32>) -> Option<u32>
    ensures { result ≡ greater left right }
{
    match (left, right) {
        (Some(left), Some(right)) => Some(left.max(right)),
        (Some(left), None) => Some(left),
        (None, right) => right,
    }
}
