//! Binding expressions: each part has a type, and its paths become leaves of the schema.

ghost use Rattle.std.specs.Prelude.{◌≡◌, ◌++◌, [], true, false, List, IfOk};
ghost use Rattle.dr_meaning.specs.BoundExpression as meant;
ghost use Rattle.dr_meaning.specs.Path.{Leaf};
ghost use Rattle.dr_meaning.specs.Syntax.{number_literal, path as meant_path, text_literal, truth_literal};
ghost use Rattle.dr_plan.specs.Fitting.{expr_fits};
ghost use Rattle.dr_sql.specs.TokenViews.{undoubled};
ghost use Rattle.dr_sql.specs.Views.{path_view};
ghost use Rattle.dr_resolve.specs.Faults.{first_view};
ghost use Rattle.dr_resolve.specs.Bound.{IsExpression};
ghost use Rattle.dr_resolve.specs.Outcomes.{Binds, BindsBy, BindsByBoth, BindsQuietly, MadeAt, bound_in, fields_in};
ghost use Rattle.dr_resolve.specs.Operators.{unary_rule, binary_rule};

use crate::bound::BoundExpression;
use crate::fault::{BindProblem, FirstFault};
use crate::names::Binder;
use crate::operators::{Binary, Unary};
use dr_memory::NoMemory;
use dr_paths::BoundPath;
use dr_plan::{Expr, Number, TextOf, Truth};
use dr_sql::{Expression, Numeral, Path, unquoted};
use std::alloc::Global;

/// A literal, which has no paths.
///
/// Errors: want of memory alone.
fn literal(alloc: Global, expression: Expr) -> Result<BoundExpression, NoMemory>
    ensures expression { IfOk result (λ x. x.expression.value ≡ expression) }
    ensures paths { IfOk result (λ x. x.paths.items ≡ []) }
    ensures alone { IfOk result (λ x. x.is_path ≡ false) }
{
    Ok(BoundExpression {
        expression: Box::new(alloc, expression)?,
        paths: Vec::new(alloc),
        is_path: false,
    })
}

/// What an operator at a place has made of its operands, whose paths these are. Where they are of wrong types, that is
/// noted.
///
/// Errors: want of memory alone.
fn made_at(
    alloc: Global,
    place: usize,
    made: Option<Expr>,
    paths: Vec<BoundPath>,
    first: &mut FirstFault,
) -> Result<Option<BoundExpression>, NoMemory>
    ensures { IfOk result (MadeAt place made paths (first_view first.old) (first_view first.new)) }
{
    match made {
        Some(expression) => {
            let expression = Box::new(alloc, expression)?;
            Ok(Some(BoundExpression {
                expression,
                paths,
                is_path: false,
            }))
        }
        None => {
            first.note(place, BindProblem::TypeMismatch);
            Ok(None)
        }
    }
}

/// The paths of one operand and of another behind them.
fn joined_paths(left: Vec<BoundPath>, right: Vec<BoundPath>) -> Result<Vec<BoundPath>, NoMemory>
    ensures { IfOk result (λ v. v.items ≡ left.items ++ right.items) }
{
    let mut paths = left;
    let mut more = right;
    paths.append(&mut more)?;
    Ok(paths)
}

/// An operator at a place, of an operand that has been bound, if it could be.
///
/// Errors: want of memory alone.
fn unary(
    alloc: Global,
    place: usize,
    operator: Unary<'_>,
    operand: Option<BoundExpression>,
    first: &mut FirstFault,
) -> Result<Option<BoundExpression>, NoMemory>
    ensures { IfOk result (BindsBy (unary_rule place operator.entry) IsExpression first.old first.new operand) }
{
    match operand {
        None => Ok(None),
        Some(operand) => {
            let made = operator.apply(alloc, Box::into_inner(operand.expression))?;
            made_at(alloc, place, made, operand.paths, first)
        }
    }
}

/// An operator at a place, of two operands that have been bound, if they could be.
///
/// Errors: want of memory alone.
fn binary(
    alloc: Global,
    place: usize,
    operator: Binary,
    left: Option<BoundExpression>,
    right: Option<BoundExpression>,
    first: &mut FirstFault,
) -> Result<Option<BoundExpression>, NoMemory>
    ensures { IfOk result (BindsByBoth (binary_rule place operator) first.old first.new left right) }
{
    let Some((left, right)) = left.zip(right) else {
        return Ok(None);
    };
    let paths = joined_paths(left.paths, right.paths)?;
    let left = Box::into_inner(left.expression);
    let made = operator.apply(alloc, left, Box::into_inner(right.expression))?;
    made_at(alloc, place, made, paths, first)
}

impl Binder<'_> {
    /// An expression. What keeps it from being bound is noted.
    ///
    /// Errors: want of memory alone.
    #[cycle(expressions)]
    pub(crate) fn expression(
        self,
        expression: &Expression<'_>,
        first: &mut FirstFault,
    ) -> Result<Option<BoundExpression>, NoMemory>
        ensures { IfOk result (Binds self.entry IsExpression first.old first.new
            (bound_in self.entry expression.now)) }
    {
        match expression {
            Expression::Number(number) => self.number(number),
            Expression::Text(text) => self.text(text),
            Expression::Truth(truth) => self.truth(*truth),
            Expression::Path(path) => self.path_value(path, first),
            Expression::Negative(place, e) => self.one(*place, Unary::Negative, e, first),
            Expression::Like(place, e, text) => self.one(*place, Unary::Like(text), e, first),
            Expression::Contains(place, e, text) => self.one(
                *place,
                Unary::Contains(text),
                e,
                first,
            ),
            Expression::IsNull(place, e) => self.one(*place, Unary::IsNull, e, first),
            Expression::Not(place, e) => self.one(*place, Unary::Not, e, first),
            Expression::Arithmetic(place, operator, left, right) => {
                self.two(*place, Binary::Arithmetic(*operator), left, right, first)
            }
            Expression::Comparison(place, operator, left, right) => {
                self.two(*place, Binary::Comparison(*operator), left, right, first)
            }
            Expression::And(place, left, right) => self.two(
                *place,
                Binary::And,
                left,
                right,
                first,
            ),
            Expression::Or(place, left, right) => self.two(*place, Binary::Or, left, right, first),
        }
    }

    /// A number that was written.
    ///
    /// Errors: want of memory alone.
    fn number(self, number: &Numeral) -> Result<Option<BoundExpression>, NoMemory>
        ensures { IfOk result (BindsQuietly self.entry IsExpression
            (meant.bind_expression (fields_in self.entry) (number_literal (number.now).value))) }
    {
        let number = Number::Literal(number.value as i64);
        Ok(Some(literal(self.alloc, Expr::Number(number))?))
    }

    /// A text that was written, as it stands between its quotes.
    ///
    /// Errors: want of memory alone.
    fn text(self, text: &str) -> Result<Option<BoundExpression>, NoMemory>
        ensures { IfOk result (BindsQuietly self.entry IsExpression
            (meant.bind_expression (fields_in self.entry) (text_literal (undoubled text.now)))) }
    {
        let text = TextOf::Literal(unquoted(self.alloc, text)?);
        Ok(Some(literal(self.alloc, Expr::Text(text))?))
    }

    /// A truth value that was written.
    ///
    /// Errors: want of memory alone.
    fn truth(self, truth: bool) -> Result<Option<BoundExpression>, NoMemory>
        ensures { IfOk result (BindsQuietly self.entry IsExpression
            (meant.bind_expression (fields_in self.entry) (truth_literal truth))) }
    {
        let truth = Truth::Literal(truth);
        Ok(Some(literal(self.alloc, Expr::Truth(truth))?))
    }

    /// The value of a path. What keeps it from being bound is noted.
    ///
    /// Errors: want of memory alone.
    fn path_value(
        self,
        path: &Path<'_>,
        first: &mut FirstFault,
    ) -> Result<Option<BoundExpression>, NoMemory>
        ensures { IfOk result (Binds self.entry IsExpression first.old first.new
            (meant.bind_expression (fields_in self.entry) (meant_path (path_view path.now)))) }
    {
        match self.path(path, first)? {
            None => Ok(None),
            Some(path) => Ok(Some(self.value_at(path)?)),
        }
    }

    /// An operator of one operand.
    #[cycle(expressions)]
    fn one(
        self,
        place: usize,
        operator: Unary<'_>,
        operand: &Expression<'_>,
        first: &mut FirstFault,
    ) -> Result<Option<BoundExpression>, NoMemory>
        ensures { IfOk result (Binds self.entry IsExpression first.old first.new
            (unary_rule place operator.entry (bound_in self.entry operand.now))) }
    {
        let operand = self.expression(operand, first)?;
        unary(self.alloc, place, operator, operand, first)
    }
    /// An operator of two operands.
    #[cycle(expressions)]
    fn two(
        self,
        place: usize,
        operator: Binary,
        left: &Expression<'_>,
        right: &Expression<'_>,
        first: &mut FirstFault,
    ) -> Result<Option<BoundExpression>, NoMemory>
        ensures { IfOk result (Binds self.entry IsExpression first.old first.new
            (binary_rule place operator (bound_in self.entry left.now) (bound_in self.entry right.now))) }
    {
        let left = self.expression(left, first)?;
        let right = self.expression(right, first)?;
        binary(self.alloc, place, operator, left, right, first)
    }
}
