//! The values of a plan's expressions in a row.
#![tactic(auto)]

mod comparing;
mod contains;
mod evaluated;
mod evaluating;
pub mod laws;
mod leaves;
mod like;
mod numbers;
mod slots;
mod texts;
mod truths;

pub use evaluated::Evaluated;
pub use evaluating::{eval, number, passes, text, truth};
pub use leaves::{last_leaf, last_leaf_of_tests};
