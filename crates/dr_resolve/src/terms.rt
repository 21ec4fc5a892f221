//! Binding the condition and what items give.

ghost use Rattle.std.specs.Prelude.{◌≡◌, IfOk, OnOk};
ghost use Rattle.dr_meaning.specs.BoundExpression as meant;
ghost use Rattle.dr_meaning.specs.Binding as binding;
ghost use Rattle.dr_plan.specs.Views.{fold_view};
ghost use Rattle.dr_sql.specs.Views as syntax;
ghost use Rattle.dr_resolve.specs.Faults.{Notes, first_view};
ghost use Rattle.dr_resolve.specs.Resolved.{found_view};
ghost use Rattle.dr_resolve.specs.Bound.{IsExpression, type_of};
ghost use Rattle.dr_resolve.specs.Outcomes.{AppendsAlone, AppendsIn, Binds, BindsAggregate, BindsAs, BindsBy};
ghost use Rattle.dr_resolve.specs.Outcomes.{fields_in, leaves_in, part_of};
ghost use Rattle.dr_resolve.specs.Items.{IsTerm, IsTruth, IsWithin};
ghost use Rattle.dr_resolve.specs.Parts.{IsCheckedCondition};

use crate::bound::{BoundCondition, BoundExpression, BoundTerm, BoundWithin};
use crate::fault::{BindProblem, FirstFault};
use crate::names::Binder;
use crate::operators::let_go;
use crate::resolving::{End, Found, resolve};
use dr_memory::NoMemory;
use dr_paths::{chain_end, same_path};
use dr_plan::{Expr, Fold};
use dr_sql::{Aggregate, Condition, Expression, Node, Term, Within};
use std::alloc::Global;

/// What came of binding a WITHIN: its path leads to no field, which is noted; it doesn't stand there; or its node.
#[derive(Drop)]
pub(crate) enum WithinPart {
    Failed,
    Absent,
    Bound(BoundWithin),
}

/// Whether an expression gives numbers.
fn is_number(expression: &Expr) -> bool
    ensures { result ≡ meant.same_type (type_of expression.now) meant.number_type }
{
    matches!(expression, Expr::Number(_))
}

/// A value that is to be a number. Where it isn't, that is noted at a place.
fn number_at(
    place: usize,
    value: Option<BoundExpression>,
    first: &mut FirstFault,
) -> Option<BoundExpression>
    ensures { BindsBy (meant.then_check (meant.of_type meant.number_type place)) IsExpression first.old first.new value
        result }
{
    match value {
        None => None,
        Some(value) => {
            if is_number(&value.expression) {
                Some(value)
            } else {
                first.note(place, BindProblem::TypeMismatch);
                None
            }
        }
    }
}

/// A value that is to be a truth value. Where it isn't, that is noted at a place.
///
/// Errors: want of memory alone.
fn truth_at(
    alloc: Global,
    place: usize,
    value: Option<BoundExpression>,
    first: &mut FirstFault,
) -> Result<Option<BoundCondition>, NoMemory>
    ensures { IfOk result (BindsBy (meant.then_check (meant.of_type meant.truth_type place)) IsTruth first.old
        first.new value) }
{
    match value {
        None => Ok(None),
        Some(value) => {
            let paths = value.paths;
            match Box::into_inner(value.expression) {
                Expr::Truth(truth) => {
                    let truth = Box::new(alloc, truth)?;
                    Ok(Some(BoundCondition { truth, paths }))
                }
                Expr::Number(number) => {
                    let_go(number);
                    first.note(place, BindProblem::TypeMismatch);
                    Ok(None)
                }
                Expr::Text(text) => {
                    let_go(text);
                    first.note(place, BindProblem::TypeMismatch);
                    Ok(None)
                }
            }
        }
    }
}

/// The aggregate of a plan that an aggregate of a query is.
fn fold_of(aggregate: Aggregate) -> Fold
    ensures { fold_view result ≡ syntax.aggregate_view aggregate }
{
    match aggregate {
        Aggregate::Count => Fold::Count,
        Aggregate::Sum => Fold::Sum,
        Aggregate::Min => Fold::Least,
        Aggregate::Max => Fold::Greatest,
    }
}

/// An aggregate of an argument within a node, if both could be bound. An argument that could be, beside a WITHIN that
/// could not, is appended to those that stand alone.
///
/// Errors: want of memory alone.
fn aggregated(
    fold: Fold,
    argument: Option<BoundExpression>,
    within: WithinPart,
    alone: &mut Vec<BoundExpression>,
) -> Result<Option<BoundTerm>, NoMemory>
    ensures term { IfOk result (BindsAggregate fold argument within) }
    ensures alone { OnOk result (AppendsAlone argument within (alone.old).items (alone.new).items) }
{
    match argument {
        None => Ok(None),
        Some(argument) => match within {
            WithinPart::Failed => {
                alone.push(argument)?;
                Ok(None)
            }
            WithinPart::Absent => Ok(Some(BoundTerm::Aggregated(fold, argument, None))),
            WithinPart::Bound(node) => {
                Ok(Some(BoundTerm::Aggregated(fold, argument, Some(node))))
            }
        },
    }
}

/// Whether a field is a group whose path ends in a repeated field.
fn is_repeated_group(found: &Found<'_>) -> bool
    ensures { result ≡ binding.is_repeated_group (found_view found.now) }
{
    match found.end {
        End::Leaf(_) => false,
        End::Group(_) => same_path(chain_end(&found.steps), &found.steps),
    }
}

impl Binder<'_> {
    /// The condition, whose value is to be a truth value, if there is one and it could be bound.
    ///
    /// Errors: want of memory alone.
    pub(crate) fn condition(
        self,
        condition: &Option<Condition<'_>>,
        first: &mut FirstFault,
    ) -> Result<Option<BoundCondition>, NoMemory>
        ensures bound { IfOk result (IsCheckedCondition (fields_in self.entry) (leaves_in self.entry)
            (binding.bind_condition (fields_in self.entry) (syntax.maybe_condition condition.now))) }
        ensures first { OnOk result (Notes (binding.faults_in (binding.bind_condition (fields_in self.entry)
            (syntax.maybe_condition condition.now))) first.old first.new) }
    {
        match condition {
            None => Ok(None),
            Some(condition) => {
                let value = self.expression(&condition.expression, first)?;
                truth_at(self.alloc, condition.place, value, first)
            }
        }
    }

    /// WITHIN, if it stands there.
    ///
    /// Errors: want of memory alone.
    fn within(
        self,
        within: &Option<Within<'_>>,
        first: &mut FirstFault,
    ) -> Result<WithinPart, NoMemory>
        ensures { IfOk result (λ w. BindsAs IsWithin (first_view first.old) (first_view first.new)
            (binding.bind_within (fields_in self.entry) (syntax.maybe_within within.now)) (part_of w)) }
    {
        match within {
            None => Ok(WithinPart::Absent),
            Some(within) => self.node(within.place, &within.node, first),
        }
    }

    /// The node of a WITHIN at a place.
    ///
    /// Errors: want of memory alone.
    fn node(
        self,
        place: usize,
        node: &Node<'_>,
        first: &mut FirstFault,
    ) -> Result<WithinPart, NoMemory>
        ensures { IfOk result (λ w. BindsAs IsWithin (first_view first.old) (first_view first.new)
            (binding.bind_node (fields_in self.entry) place (syntax.node_view node.now)) (part_of w)) }
    {
        match node {
            Node::Record => Ok(WithinPart::Bound(BoundWithin {
                place,
                node: Vec::new(self.alloc),
                is_whole: true,
            })),
            Node::Path(path) => match resolve(self.alloc, &self.schema.fields, &path.names)? {
                None => {
                    first.note(path.place, BindProblem::UnknownField);
                    Ok(WithinPart::Failed)
                }
                Some(found) => {
                    let is_whole = is_repeated_group(&found);
                    let node = found.steps;
                    Ok(WithinPart::Bound(BoundWithin {
                        place,
                        node,
                        is_whole,
                    }))
                }
            },
        }
    }

    /// The argument of an aggregate at a place: of SUM it is to be a number.
    ///
    /// Errors: want of memory alone.
    fn argument(
        self,
        aggregate: Aggregate,
        place: usize,
        argument: &Expression<'_>,
        first: &mut FirstFault,
    ) -> Result<Option<BoundExpression>, NoMemory>
        ensures { IfOk result (Binds self.entry IsExpression first.old first.new
            (binding.bind_argument (fields_in self.entry) place (syntax.aggregate_view aggregate)
            (syntax.expression_view argument.now))) }
    {
        let argument = self.expression(argument, first)?;
        match aggregate {
            Aggregate::Sum => Ok(number_at(place, argument, first)),
            Aggregate::Count | Aggregate::Min | Aggregate::Max => Ok(argument),
        }
    }

    /// What the item at a place gives. An argument that fails by its WITHIN alone is appended to those that stand
    /// alone.
    ///
    /// Errors: want of memory alone.
    pub(crate) fn term(
        self,
        place: usize,
        term: &Term<'_>,
        alone: &mut Vec<BoundExpression>,
        first: &mut FirstFault,
    ) -> Result<Option<BoundTerm>, NoMemory>
        ensures term { IfOk result (Binds self.entry IsTerm first.old first.new
            (binding.bind_term (fields_in self.entry) place (syntax.term_view term.now))) }
        ensures alone { OnOk result (AppendsIn self.entry
            (binding.argument_alone (fields_in self.entry) place (syntax.term_view term.now)) (alone.old).items
            (alone.new).items) }
    {
        match term {
            Term::Expression(expression) => match self.expression(expression, first)? {
                None => Ok(None),
                Some(value) => Ok(Some(BoundTerm::Value(value))),
            },
            Term::CountRows(within) => match self.within(within, first)? {
                WithinPart::Failed => Ok(None),
                WithinPart::Absent => Ok(Some(BoundTerm::Rows(None))),
                WithinPart::Bound(node) => Ok(Some(BoundTerm::Rows(Some(node)))),
            },
            Term::Aggregate(aggregate, argument, within) => {
                let argument = self.argument(*aggregate, place, argument, first)?;
                let within = self.within(within, first)?;
                aggregated(fold_of(*aggregate), argument, within, alone)
            }
        }
    }
}
