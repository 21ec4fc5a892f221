//! Expressions put together from their operands.

ghost use Rattle.std.specs.Prelude.{◌≡◌, IfOk};
ghost use Rattle.dr_meaning.specs.Syntax as syntax;
ghost use Rattle.dr_sql.specs.Boxes.{Built, boxed_view};
ghost use Rattle.dr_sql.specs.Precedences.{joined_view};
ghost use Rattle.dr_sql.specs.Tests.{shape, tested, text_test_view};
ghost use Rattle.dr_sql.specs.TokenViews.{undoubled};
ghost use Rattle.dr_sql.specs.Views.{expression_view};

use crate::expression::Expression;
use crate::fault::QueryFault;
use crate::precedence::Joining;
use crate::word_test::{TextTest, WordTest};
use dr_memory::NoMemory;
use std::alloc::Global;

/// An expression, boxed.
///
/// Errors: want of memory alone.
pub fn boxed<'a>(
    alloc: Global,
    expression: Expression<'a>,
) -> Result<Box<Expression<'a>>, QueryFault>
    ensures { Built (expression_view expression.entry) result }
{
    Ok(Box::new(alloc, expression)?)
}

impl<'a> Expression<'a> {
    pub fn negative(place: usize, operand: Box<Expression<'a>>) -> Expression<'a>
        ensures { expression_view result ≡ syntax.negative place (boxed_view operand.entry) }
    {
        Expression::Negative(place, operand)
    }

    pub fn negation(place: usize, operand: Box<Expression<'a>>) -> Expression<'a>
        ensures { expression_view result ≡ syntax.negation place (boxed_view operand.entry) }
    {
        Expression::Not(place, operand)
    }

    /// Two operands joined by an operator.
    pub fn joined(
        place: usize,
        joining: Joining,
        left: Box<Expression<'a>>,
        right: Box<Expression<'a>>,
    ) -> Expression<'a>
        ensures { expression_view result ≡ joined_view joining place left.entry right.entry }
    {
        match joining {
            Joining::Or => Expression::Or(place, left, right),
            Joining::And => Expression::And(place, left, right),
            Joining::Arithmetic(sign) => Expression::Arithmetic(place, sign, left, right),
            Joining::Comparison(sign) => Expression::Comparison(place, sign, left, right),
        }
    }

    fn is_null(place: usize, operand: Box<Expression<'a>>) -> Expression<'a>
        ensures { expression_view result ≡ syntax.is_null place (boxed_view operand.entry) }
    {
        Expression::IsNull(place, operand)
    }

    /// LIKE or CONTAINS, with the text as it stands between its quotes.
    fn text_test(
        place: usize,
        test: TextTest,
        operand: Box<Expression<'a>>,
        text: &'a str,
    ) -> Expression<'a>
        ensures { expression_view result
            ≡ text_test_view test place (boxed_view operand.entry) (undoubled text.now) }
    {
        match test {
            TextTest::Like => Expression::Like(place, operand, text),
            TextTest::Contains => Expression::Contains(place, operand, text),
        }
    }

    /// A test as it is, or its negation at its own place.
    fn shaped(
        alloc: Global,
        place: usize,
        test: Expression<'a>,
        denied: bool,
    ) -> Result<Box<Expression<'a>>, NoMemory>
        ensures { IfOk result (λ e. boxed_view e ≡ shape denied place (expression_view test.entry)) }
    {
        let test = Box::new(alloc, test)?;
        if denied {
            Ok(Box::new(alloc, Expression::negation(place, test))?)
        } else {
            Ok(test)
        }
    }

    /// What a test makes of an expression.
    pub fn tested(
        alloc: Global,
        operand: Box<Expression<'a>>,
        test: WordTest<'a>,
    ) -> Result<Box<Expression<'a>>, NoMemory>
        ensures { IfOk result (λ e. boxed_view e ≡ tested (boxed_view operand.entry) test.entry) }
    {
        match test {
            WordTest::Nothing => Ok(operand),
            WordTest::Null { place, denied } => {
                Expression::shaped(alloc, place, Expression::is_null(place, operand), denied)
            }
            WordTest::Text {
                place,
                test,
                text,
                denied,
            } => {
                let test = Expression::text_test(place, test, operand, text);
                Expression::shaped(alloc, place, test, denied)
            }
        }
    }
}
