//! Operators over operands that are bound: what they make, where the operands are of their types.

ghost use Rattle.std.specs.Prelude.{◌≡◌, ◌&&◌, List, IfOk, IfSome, option_map};
ghost use Rattle.dr_meaning.specs.Path.{Leaf};
ghost use Rattle.dr_meaning.specs.BoundExpression.{truth_type, number_type, text_type};
ghost use Rattle.dr_plan.specs.Views.{expr_view, truth_view, number_view, text_view, comparison_view as planned_comparison};
ghost use Rattle.dr_plan.specs.Fitting.{expr_fits, truth_fits, number_fits, text_fits};
ghost use Rattle.dr_sql.specs.Views.{comparison_view};
ghost use Rattle.dr_resolve.specs.Bound.{type_of};
ghost use Rattle.dr_resolve.specs.Operators.{unary_type, unary_of, binary_type, binary_of, IsOver, FitsWhere};

use dr_memory::NoMemory;
use dr_plan::{Expr, Number, TextOf, Truth};
use dr_sql::unquoted;
use std::alloc::Global;

/// An operator of one operand. A pattern or a part is as it stands between its quotes.
#[derive(Clone, Copy)]
pub enum Unary<'a> {
    Negative,
    Like(&'a str),
    Contains(&'a str),
    IsNull,
    Not,
}

/// An operator of two operands.
#[derive(Clone, Copy)]
pub enum Binary {
    Arithmetic(dr_sql::Arithmetic),
    Comparison(dr_sql::Comparison),
    And,
    Or,
}

/// Lets go of a value: of any type, so that it is one call in place of an arm for each of its variants.
pub(crate) fn let_go<T: Drop>(_value: T) {}

impl Unary<'_> {
    /// What the operator makes of an operand, if that is of its type.
    ///
    /// Errors: want of memory alone.
    pub fn apply(self, alloc: Global, operand: Expr) -> Result<Option<Expr>, NoMemory>
        ensures typed { IfOk result (λ o. option_map type_of o ≡ unary_type self.entry (type_of operand)) }
        ensures view { IfOk result (λ o. IfSome o (λ e. (ls : List Leaf) → expr_view ls e
            ≡ unary_of self.entry (expr_view ls operand))) }
        ensures fits { IfOk result (λ o. IfSome o (λ e. (ls : List Leaf) → expr_fits ls e ≡ expr_fits ls operand)) }
    {
        match operand {
            Expr::Truth(truth) => self.of_truth(alloc, truth),
            Expr::Number(number) => self.of_number(alloc, number),
            Expr::Text(text) => self.of_text(alloc, text),
        }
    }

    /// What the operator makes of a truth value, if it is one of truth values.
    fn of_truth(self, alloc: Global, operand: Truth) -> Result<Option<Expr>, NoMemory>
        ensures typed { IfOk result (λ o. option_map type_of o ≡ unary_type self.entry truth_type) }
        ensures view { IfOk result (IsOver (λ ls. unary_of self.entry (truth_view ls operand))) }
        ensures fits { IfOk result (FitsWhere (λ ls. truth_fits ls operand)) }
    {
        match self {
            Unary::IsNull => Ok(Some(Expr::Truth(Truth::is_null(alloc, operand)?))),
            Unary::Not => Ok(Some(Expr::Truth(Truth::negation(alloc, operand)?))),
            Unary::Negative | Unary::Like(_) | Unary::Contains(_) => {
                let_go(operand);
                Ok(None)
            }
        }
    }

    /// What the operator makes of a number, if it is one of numbers.
    fn of_number(self, alloc: Global, operand: Number) -> Result<Option<Expr>, NoMemory>
        ensures typed { IfOk result (λ o. option_map type_of o ≡ unary_type self.entry number_type) }
        ensures view { IfOk result (IsOver (λ ls. unary_of self.entry (number_view ls operand))) }
        ensures fits { IfOk result (FitsWhere (λ ls. number_fits ls operand)) }
    {
        match self {
            Unary::Negative => Ok(Some(Expr::Number(Number::negative(alloc, operand)?))),
            Unary::IsNull => Ok(Some(Expr::Truth(Truth::NumberIsNull(operand)))),
            Unary::Like(_) | Unary::Contains(_) | Unary::Not => {
                let_go(operand);
                Ok(None)
            }
        }
    }

    /// What the operator makes of a text, if it is one of texts.
    fn of_text(self, alloc: Global, operand: TextOf) -> Result<Option<Expr>, NoMemory>
        ensures typed { IfOk result (λ o. option_map type_of o ≡ unary_type self.entry text_type) }
        ensures view { IfOk result (IsOver (λ ls. unary_of self.entry (text_view ls operand))) }
        ensures fits { IfOk result (FitsWhere (λ ls. text_fits ls operand)) }
    {
        match self {
            Unary::Like(pattern) => {
                let pattern = unquoted(alloc, pattern)?;
                Ok(Some(Expr::Truth(Truth::Like(operand, pattern))))
            }
            Unary::Contains(part) => {
                let part = unquoted(alloc, part)?;
                Ok(Some(Expr::Truth(Truth::Contains(operand, part))))
            }
            Unary::IsNull => Ok(Some(Expr::Truth(Truth::TextIsNull(operand)))),
            Unary::Negative | Unary::Not => {
                let_go(operand);
                Ok(None)
            }
        }
    }
}

impl Binary {
    /// What the operator makes of two operands, if they are of its types.
    ///
    /// Errors: want of memory alone.
    pub fn apply(self, alloc: Global, left: Expr, right: Expr) -> Result<Option<Expr>, NoMemory>
        ensures typed { IfOk result (λ o. option_map type_of o ≡ binary_type self (type_of left) (type_of right)) }
        ensures view { IfOk result (λ o. IfSome o (λ e. (ls : List Leaf) → expr_view ls e
            ≡ binary_of self (expr_view ls left) (expr_view ls right))) }
        ensures fits { IfOk result (λ o. IfSome o (λ e. (ls : List Leaf) → expr_fits ls e
            ≡ (expr_fits ls left && expr_fits ls right))) }
    {
        match left {
            Expr::Truth(left) => self.with_truth(alloc, left, right),
            Expr::Number(left) => self.with_number(alloc, left, right),
            Expr::Text(left) => self.with_text(alloc, left, right),
        }
    }

    /// What the operator makes of a truth and another operand.
    #[tactic(auto, using(crate::proofs::UnlikeLemmas::of_unlike))]
    fn with_truth(self, alloc: Global, left: Truth, right: Expr) -> Result<Option<Expr>, NoMemory>
        ensures typed { IfOk result (λ o. option_map type_of o ≡ binary_type self truth_type (type_of right)) }
        ensures view { IfOk result (IsOver (λ ls. binary_of self (truth_view ls left) (expr_view ls right))) }
        ensures fits { IfOk result (FitsWhere (λ ls. truth_fits ls left && expr_fits ls right)) }
    {
        match right {
            Expr::Truth(right) => self.of_truths(alloc, left, right),
            Expr::Number(right) => {
                let_go(left);
                let_go(right);
                Ok(None)
            }
            Expr::Text(right) => {
                let_go(left);
                let_go(right);
                Ok(None)
            }
        }
    }

    /// What the operator makes of a number and another operand.
    #[tactic(auto, using(crate::proofs::UnlikeLemmas::of_unlike))]
    fn with_number(self, alloc: Global, left: Number, right: Expr) -> Result<Option<Expr>, NoMemory>
        ensures typed { IfOk result (λ o. option_map type_of o ≡ binary_type self number_type (type_of right)) }
        ensures view { IfOk result (IsOver (λ ls. binary_of self (number_view ls left) (expr_view ls right))) }
        ensures fits { IfOk result (FitsWhere (λ ls. number_fits ls left && expr_fits ls right)) }
    {
        match right {
            Expr::Number(right) => self.of_numbers(alloc, left, right),
            Expr::Truth(right) => {
                let_go(left);
                let_go(right);
                Ok(None)
            }
            Expr::Text(right) => {
                let_go(left);
                let_go(right);
                Ok(None)
            }
        }
    }

    /// What the operator makes of a text and another operand.
    #[tactic(auto, using(crate::proofs::UnlikeLemmas::of_unlike))]
    fn with_text(self, alloc: Global, left: TextOf, right: Expr) -> Result<Option<Expr>, NoMemory>
        ensures typed { IfOk result (λ o. option_map type_of o ≡ binary_type self text_type (type_of right)) }
        ensures view { IfOk result (IsOver (λ ls. binary_of self (text_view ls left) (expr_view ls right))) }
        ensures fits { IfOk result (FitsWhere (λ ls. text_fits ls left && expr_fits ls right)) }
    {
        match right {
            Expr::Text(right) => self.of_texts(alloc, left, right),
            Expr::Truth(right) => {
                let_go(left);
                let_go(right);
                Ok(None)
            }
            Expr::Number(right) => {
                let_go(left);
                let_go(right);
                Ok(None)
            }
        }
    }

    /// What the operator makes of two truth values, if it is one of truth values.
    fn of_truths(self, alloc: Global, left: Truth, right: Truth) -> Result<Option<Expr>, NoMemory>
        ensures typed { IfOk result (λ o. option_map type_of o ≡ binary_type self truth_type truth_type) }
        ensures view { IfOk result (IsOver (λ ls. binary_of self (truth_view ls left) (truth_view ls right))) }
        ensures fits { IfOk result (FitsWhere (λ ls. truth_fits ls left && truth_fits ls right)) }
    {
        match self {
            Binary::And => Ok(Some(Expr::Truth(Truth::conjunction(alloc, left, right)?))),
            Binary::Or => Ok(Some(Expr::Truth(Truth::disjunction(alloc, left, right)?))),
            Binary::Comparison(operator) => {
                let operator = comparison_of(operator);
                Ok(Some(Expr::Truth(Truth::comparison(alloc, operator, left, right)?)))
            }
            Binary::Arithmetic(_) => {
                let_go(left);
                let_go(right);
                Ok(None)
            }
        }
    }

    /// What the operator makes of two numbers, if it is one of numbers.
    fn of_numbers(
        self,
        alloc: Global,
        left: Number,
        right: Number,
    ) -> Result<Option<Expr>, NoMemory>
        ensures typed { IfOk result (λ o. option_map type_of o ≡ binary_type self number_type number_type) }
        ensures view { IfOk result (IsOver (λ ls. binary_of self (number_view ls left) (number_view ls right))) }
        ensures fits { IfOk result (FitsWhere (λ ls. number_fits ls left && number_fits ls right)) }
    {
        match self {
            Binary::Arithmetic(dr_sql::Arithmetic::Plus) => {
                Ok(Some(Expr::Number(Number::add(alloc, left, right)?)))
            }
            Binary::Arithmetic(dr_sql::Arithmetic::Minus) => {
                Ok(Some(Expr::Number(Number::subtract(alloc, left, right)?)))
            }
            Binary::Arithmetic(dr_sql::Arithmetic::Times) => {
                Ok(Some(Expr::Number(Number::multiply(alloc, left, right)?)))
            }
            Binary::Comparison(operator) => {
                let operator = comparison_of(operator);
                Ok(Some(Expr::Truth(Truth::Numbers(operator, left, right))))
            }
            Binary::And | Binary::Or => {
                let_go(left);
                let_go(right);
                Ok(None)
            }
        }
    }

    /// What the operator makes of two texts, if it is one of texts.
    fn of_texts(self, alloc: Global, left: TextOf, right: TextOf) -> Result<Option<Expr>, NoMemory>
        ensures typed { IfOk result (λ o. option_map type_of o ≡ binary_type self text_type text_type) }
        ensures view { IfOk result (IsOver (λ ls. binary_of self (text_view ls left) (text_view ls right))) }
        ensures fits { IfOk result (FitsWhere (λ ls. text_fits ls left && text_fits ls right)) }
    {
        match self {
            Binary::Arithmetic(dr_sql::Arithmetic::Plus) => {
                Ok(Some(Expr::Text(TextOf::join(alloc, left, right)?)))
            }
            Binary::Comparison(operator) => {
                let operator = comparison_of(operator);
                Ok(Some(Expr::Truth(Truth::Texts(operator, left, right))))
            }
            Binary::Arithmetic(_) | Binary::And | Binary::Or => {
                let_go(left);
                let_go(right);
                Ok(None)
            }
        }
    }
}

/// The comparison of a plan that a comparison of a query is.
fn comparison_of(operator: dr_sql::Comparison) -> dr_plan::Comparison
    ensures { planned_comparison result ≡ comparison_view operator }
{
    match operator {
        dr_sql::Comparison::Equal => dr_plan::Comparison::Equal,
        dr_sql::Comparison::Unequal => dr_plan::Comparison::Unequal,
        dr_sql::Comparison::Less => dr_plan::Comparison::Less,
        dr_sql::Comparison::AtMost => dr_plan::Comparison::AtMost,
        dr_sql::Comparison::Greater => dr_plan::Comparison::Greater,
        dr_sql::Comparison::AtLeast => dr_plan::Comparison::AtLeast,
    }
}
