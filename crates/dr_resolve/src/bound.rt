//! Parts of a query whose names have become leaves of a schema.

use dr_nested::Step;
use dr_paths::BoundPath;
use dr_plan::{Expr, Fold, Truth};

/// An expression, with its paths in the order of the text, and whether it is a path alone.
#[derive(Drop)]
pub struct BoundExpression {
    pub expression: Box<Expr>,
    pub paths: Vec<BoundPath>,
    pub is_path: bool,
}

/// A condition, with its paths in the order of the text.
#[derive(Drop)]
pub struct BoundCondition {
    pub truth: Box<Truth>,
    pub paths: Vec<BoundPath>,
}

/// WITHIN, at its byte place: the node, and whether it is the record or a repeated group.
#[derive(Drop)]
pub struct BoundWithin {
    pub place: usize,
    pub node: Vec<Step>,
    pub is_whole: bool,
}

/// What an item gives: the value of an expression, COUNT(*), or an aggregate of an expression.
#[derive(Drop)]
pub enum BoundTerm {
    Value(BoundExpression),
    Rows(Option<BoundWithin>),
    Aggregated(Fold, BoundExpression, Option<BoundWithin>),
}

/// An item of a query, at the byte place of its first token, with the name of what it gives.
#[derive(Drop)]
pub struct BoundItem {
    pub place: usize,
    pub name: String,
    pub term: BoundTerm,
}

/// The parts of a query: whether it is a record query; the condition, if there is one and it could be bound; the items
/// and keys that could be bound, and whether each key could be; of the items that could not, since WITHIN names no
/// field, the arguments that could.
#[derive(Drop)]
pub struct BoundParts {
    pub is_record_query: bool,
    pub condition: Option<BoundCondition>,
    pub items: Vec<BoundItem>,
    pub arguments: Vec<BoundExpression>,
    pub keys: Vec<BoundPath>,
    pub has_all_keys: bool,
}
