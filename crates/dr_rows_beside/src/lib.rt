//! Rows of columns side by side: at each triplet of a leaf, its value and what was read last of the leaves beside it;
//! and which of these rows, and of their records, a plan's condition keeps.
#![tactic(auto)]

mod answers;
mod bits;
mod comparing;
mod judging;
pub mod judging_laws;
mod keeping;
mod lent;
mod place;
mod reading;
pub mod row_laws;
mod rows;
mod source;

pub use bits::count_set;
pub use keeping::Keeping;
pub use place::Place;
pub use reading::push_leaves;
pub use rows::Rows;
pub use source::{Beside, Source};
