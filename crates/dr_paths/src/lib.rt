//! Paths of a schema: its leaves, the chains of repeated fields on paths and of expressions, which path is unrelated to
//! an earlier one, and the leaves that a query uses.
#![tactic(auto)]

mod bound;
mod chains;
mod copying;
mod expression_chains;
pub mod leaf_laws;
mod leaves;
mod paths;
mod related;
mod used;
mod way;

pub use bound::BoundPath;
pub use chains::{chain_end, deepest_chain, longer, longest_chain};
pub use expression_chains::{expression_chain, keys_chain, tests_chain};
pub use leaves::leaf_paths;
pub use paths::{begins_with, same_path};
pub use related::first_unrelated;
pub use used::used_leaves;
