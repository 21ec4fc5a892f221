//! The text of a plan's queries, as the servers of a tree run them.
#![tactic(auto)]

mod arranging;
mod columns;
mod condition;
mod expressions;
mod leaf_items;
mod lines;
mod lists;
mod literals;
mod merge;
mod merged;
mod merging;
mod names;
mod nested;
mod numbers;
mod paths;
mod record_items;
mod row_columns;
mod server_items;
mod terms;

pub use merge::{Merge, inner_of, root_of};
pub use nested::nested_text;
