//! Binding the parts of a query, each by itself: names become leaves of a schema, and expressions get types. What the
//! parts are when they are bound, and the first fault of a query.
#![tactic(auto)]

mod bound;
mod expressions;
mod fault;
mod items;
mod names;
mod numbers;
mod operators;
mod parts;
mod paths;
mod resolving;
mod terms;

pub use bound::{BoundCondition, BoundExpression, BoundItem, BoundParts, BoundTerm, BoundWithin};
pub use fault::{BindFault, BindProblem, Fault, FirstFault};
pub use names::Binder;
pub use numbers::{leaf_number, place_among};
pub use operators::{Binary, Unary};
