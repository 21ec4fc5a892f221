//! The chains of a plan's expressions: the longest among those of their leaves.

ghost use Rattle.std.specs.Prelude.{◌≡◌, map};
ghost use Rattle.std.specs.List.{slice_get};
ghost use Rattle.dr_meaning.specs.Expression as meant;
ghost use Rattle.dr_meaning.specs.Path as path_meaning;
ghost use Rattle.dr_nested.specs.PathView.{step_view, path_view};
ghost use Rattle.dr_plan.specs.Views.{expr_view, number_view, path_of, text_view, truth_view};
ghost use Rattle.dr_paths.specs.Chains.{expressions_chain};

use crate::chains::{chain_end, longer};
use dr_nested::{Path, Step};
use dr_plan::{Expr, Number, TextOf, Truth};

fn leaf_chain(leaves: &[Path], leaf: u32) -> &[Step]
    ensures { map step_view result.now ≡ path_meaning.chain_end (path_of (slice_get (map path_view leaves.now) leaf)) }
{
    match leaves.get(leaf as usize) {
        Some(path) => chain_end(&path.steps),
        None => &[],
    }
}

#[tactic(auto, using(crate::proofs::LongestLemmas::chain_of_both))]
fn number_chain<'p>(leaves: &'p [Path], number: &Number) -> &'p [Step]
    ensures { map step_view result.now ≡ meant.expression_chain (number_view (map path_view leaves.now) number.now) }
{
    match number {
        Number::Literal(_) => &[],
        Number::Leaf(leaf) => leaf_chain(leaves, *leaf),
        Number::Negative(operand) => number_chain(leaves, operand),
        Number::Add(left, right) => {
            longer(number_chain(leaves, left), number_chain(leaves, right))
        }
        Number::Subtract(left, right) => {
            longer(number_chain(leaves, left), number_chain(leaves, right))
        }
        Number::Multiply(left, right) => {
            longer(number_chain(leaves, left), number_chain(leaves, right))
        }
    }
}

#[tactic(auto, using(crate::proofs::LongestLemmas::chain_of_both))]
fn text_chain<'p>(leaves: &'p [Path], text: &TextOf) -> &'p [Step]
    ensures { map step_view result.now ≡ meant.expression_chain (text_view (map path_view leaves.now) text.now) }
{
    match text {
        TextOf::Literal(_) => &[],
        TextOf::Leaf(leaf) => leaf_chain(leaves, *leaf),
        TextOf::Join(left, right) => longer(text_chain(leaves, left), text_chain(leaves, right)),
    }
}

#[tactic(auto, using(crate::proofs::LongestLemmas::chain_of_both))]
fn truth_chain<'p>(leaves: &'p [Path], truth: &Truth) -> &'p [Step]
    ensures { map step_view result.now ≡ meant.expression_chain (truth_view (map path_view leaves.now) truth.now) }
{
    match truth {
        Truth::Literal(_) => &[],
        Truth::Leaf(leaf) => leaf_chain(leaves, *leaf),
        Truth::Not(operand) | Truth::TruthIsNull(operand) => truth_chain(leaves, operand),
        Truth::And(left, right) => longer(truth_chain(leaves, left), truth_chain(leaves, right)),
        Truth::Or(left, right) => longer(truth_chain(leaves, left), truth_chain(leaves, right)),
        Truth::Truths(_, left, right) => {
            longer(truth_chain(leaves, left), truth_chain(leaves, right))
        }
        Truth::Numbers(_, left, right) => {
            longer(number_chain(leaves, left), number_chain(leaves, right))
        }
        Truth::Texts(_, left, right) => longer(text_chain(leaves, left), text_chain(leaves, right)),
        Truth::Like(text, _) | Truth::Contains(text, _) | Truth::TextIsNull(text) => {
            text_chain(leaves, text)
        }
        Truth::NumberIsNull(number) => number_chain(leaves, number),
    }
}

/// The chain of an expression: the longest among those of the plan's leaves in it.
pub fn expression_chain<'p>(leaves: &'p [Path], expression: &Expr) -> &'p [Step]
    ensures { map step_view result.now ≡ meant.expression_chain (expr_view (map path_view leaves.now) expression.now) }
{
    match expression {
        Expr::Truth(truth) => truth_chain(leaves, truth),
        Expr::Number(number) => number_chain(leaves, number),
        Expr::Text(text) => text_chain(leaves, text),
    }
}

/// The chain of a condition that is cut into tests: the longest among all of theirs.
pub fn tests_chain<'p>(leaves: &'p [Path], tests: &[Truth]) -> &'p [Step]
    ensures { map step_view result.now ≡ expressions_chain (map (truth_view (map path_view leaves.now)) tests.now) }
{
    let mut longest: &[Step] = &[];
    'tests: for test in tests {
        longest = longer(longest, truth_chain(leaves, test));
    }
    longest
}

/// The chain of keys, each the number of a leaf: the longest among theirs.
pub fn keys_chain<'p>(leaves: &'p [Path], keys: &[u32]) -> &'p [Step]
    ensures { map step_view result.now ≡ meant.longest_chain
        (map (λ k. path_of (slice_get (map path_view leaves.now) k)) keys.now) }
{
    let mut longest: &[Step] = &[];
    'keys: for key in keys {
        longest = longer(longest, leaf_chain(leaves, *key));
    }
    longest
}
