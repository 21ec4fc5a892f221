//! Expressions of a plan put together from their operands.

ghost use Rattle.std.specs.Prelude.{◌≡◌, List, IfOk, ◌&&◌};
ghost use Rattle.dr_meaning.specs.Path.{Leaf};
ghost use Rattle.dr_meaning.specs.Expression as meant;
ghost use Rattle.dr_plan.specs.Views.{number_view, text_view, truth_view, comparison_view};
ghost use Rattle.dr_plan.specs.Fitting.{number_fits, text_fits, truth_fits};

use crate::expression::{Comparison, Number, TextOf, Truth};
use dr_memory::NoMemory;
use std::alloc::Global;

/// Two operands, each in a box. Of any type, so that one is let go by one call where memory is wanting, and not variant
/// by variant.
///
/// Errors: want of memory alone.
pub(crate) fn both<T: Drop>(alloc: Global, left: T, right: T) -> Result<(Box<T>, Box<T>), NoMemory>
    ensures left { IfOk result (λ b. b.0.value ≡ left) }
    ensures right { IfOk result (λ b. b.1.value ≡ right) }
{
    let left = Box::new(alloc, left)?;
    let right = Box::new(alloc, right)?;
    Ok((left, right))
}

impl Number {
    /// `-a`
    ///
    /// Errors: want of memory alone.
    pub fn negative(alloc: Global, operand: Number) -> Result<Number, NoMemory>
        ensures view { IfOk result (λ e. (ls : List Leaf) → number_view ls e
            ≡ meant.negative (number_view ls operand)) }
        ensures fits { IfOk result (λ e. (ls : List Leaf) → number_fits ls e ≡ number_fits ls operand) }
    {
        Ok(Number::Negative(Box::new(alloc, operand)?))
    }

    /// `a + b`
    ///
    /// Errors: want of memory alone.
    pub fn add(alloc: Global, left: Number, right: Number) -> Result<Number, NoMemory>
        ensures view { IfOk result (λ e. (ls : List Leaf) → number_view ls e
            ≡ meant.arithmetic meant.plus (number_view ls left) (number_view ls right)) }
        ensures fits { IfOk result (λ e. (ls : List Leaf) → number_fits ls e
            ≡ (number_fits ls left && number_fits ls right)) }
    {
        let (left, right) = both(alloc, left, right)?;
        Ok(Number::Add(left, right))
    }

    /// `a - b`
    ///
    /// Errors: want of memory alone.
    pub fn subtract(alloc: Global, left: Number, right: Number) -> Result<Number, NoMemory>
        ensures view { IfOk result (λ e. (ls : List Leaf) → number_view ls e
            ≡ meant.arithmetic meant.minus (number_view ls left) (number_view ls right)) }
        ensures fits { IfOk result (λ e. (ls : List Leaf) → number_fits ls e
            ≡ (number_fits ls left && number_fits ls right)) }
    {
        let (left, right) = both(alloc, left, right)?;
        Ok(Number::Subtract(left, right))
    }

    /// `a * b`
    ///
    /// Errors: want of memory alone.
    pub fn multiply(alloc: Global, left: Number, right: Number) -> Result<Number, NoMemory>
        ensures view { IfOk result (λ e. (ls : List Leaf) → number_view ls e
            ≡ meant.arithmetic meant.times (number_view ls left) (number_view ls right)) }
        ensures fits { IfOk result (λ e. (ls : List Leaf) → number_fits ls e
            ≡ (number_fits ls left && number_fits ls right)) }
    {
        let (left, right) = both(alloc, left, right)?;
        Ok(Number::Multiply(left, right))
    }
}

impl TextOf {
    /// `a + b`
    ///
    /// Errors: want of memory alone.
    pub fn join(alloc: Global, left: TextOf, right: TextOf) -> Result<TextOf, NoMemory>
        ensures view { IfOk result (λ e. (ls : List Leaf) → text_view ls e
            ≡ meant.arithmetic meant.plus (text_view ls left) (text_view ls right)) }
        ensures fits { IfOk result (λ e. (ls : List Leaf) → text_fits ls e
            ≡ (text_fits ls left && text_fits ls right)) }
    {
        let (left, right) = both(alloc, left, right)?;
        Ok(TextOf::Join(left, right))
    }
}

impl Truth {
    /// `NOT a`
    ///
    /// Errors: want of memory alone.
    pub fn negation(alloc: Global, operand: Truth) -> Result<Truth, NoMemory>
        ensures view { IfOk result (λ e. (ls : List Leaf) → truth_view ls e ≡ meant.negation (truth_view ls operand)) }
        ensures fits { IfOk result (λ e. (ls : List Leaf) → truth_fits ls e ≡ truth_fits ls operand) }
    {
        Ok(Truth::Not(Box::new(alloc, operand)?))
    }

    /// `a AND b`
    ///
    /// Errors: want of memory alone.
    pub fn conjunction(alloc: Global, left: Truth, right: Truth) -> Result<Truth, NoMemory>
        ensures view { IfOk result (λ e. (ls : List Leaf) → truth_view ls e
            ≡ meant.conjunction (truth_view ls left) (truth_view ls right)) }
        ensures fits { IfOk result (λ e. (ls : List Leaf) → truth_fits ls e
            ≡ (truth_fits ls left && truth_fits ls right)) }
    {
        let (left, right) = both(alloc, left, right)?;
        Ok(Truth::And(left, right))
    }

    /// `a OR b`
    ///
    /// Errors: want of memory alone.
    pub fn disjunction(alloc: Global, left: Truth, right: Truth) -> Result<Truth, NoMemory>
        ensures view { IfOk result (λ e. (ls : List Leaf) → truth_view ls e
            ≡ meant.disjunction (truth_view ls left) (truth_view ls right)) }
        ensures fits { IfOk result (λ e. (ls : List Leaf) → truth_fits ls e
            ≡ (truth_fits ls left && truth_fits ls right)) }
    {
        let (left, right) = both(alloc, left, right)?;
        Ok(Truth::Or(left, right))
    }

    /// A comparison of two truth values: false before true.
    ///
    /// Errors: want of memory alone.
    pub fn comparison(
        alloc: Global,
        operator: Comparison,
        left: Truth,
        right: Truth,
    ) -> Result<Truth, NoMemory>
        ensures view { IfOk result (λ e. (ls : List Leaf) → truth_view ls e
            ≡ meant.comparison (comparison_view operator) (truth_view ls left) (truth_view ls right)) }
        ensures fits { IfOk result (λ e. (ls : List Leaf) → truth_fits ls e
            ≡ (truth_fits ls left && truth_fits ls right)) }
    {
        let (left, right) = both(alloc, left, right)?;
        Ok(Truth::Truths(operator, left, right))
    }

    /// `a IS NULL`, of a truth value.
    ///
    /// Errors: want of memory alone.
    pub fn is_null(alloc: Global, operand: Truth) -> Result<Truth, NoMemory>
        ensures view { IfOk result (λ e. (ls : List Leaf) → truth_view ls e ≡ meant.is_null (truth_view ls operand)) }
        ensures fits { IfOk result (λ e. (ls : List Leaf) → truth_fits ls e ≡ truth_fits ls operand) }
    {
        Ok(Truth::TruthIsNull(Box::new(alloc, operand)?))
    }
}
