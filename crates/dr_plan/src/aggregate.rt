//! Aggregates of a plan.

use crate::expression::Expr;
use dr_nested::Step;

/// What is made of the values of an argument: COUNT, SUM, MIN, MAX.
#[derive(Clone, Copy, PartialEq, Eq)]
pub enum Fold {
    Count,
    Sum,
    Least,
    Greatest,
}

/// An aggregate over the rows of a group.
#[derive(Drop)]
pub enum Aggregate {
    /// COUNT(*): the rows of the keys' chain.
    Rows,
    /// An aggregate of an expression.
    Of(Fold, Expr),
}

/// An aggregate within each instance of a node: the record, by no steps, or a repeated group.
#[derive(Drop)]
pub struct Within {
    pub fold: Fold,
    pub argument: Expr,
    pub node: Vec<Step>,
}
