//! Rows of a record as the values of leaves in them, and what a condition leaves of a record (Dremel 2010, section 5).
#![tactic(auto)]

mod answers;
mod instance_ref;
mod laws;
mod listing;
mod looking;
mod pruning;
mod row;
mod settling;
mod table;
mod walking;

pub use instance_ref::InstanceRef;
pub use laws::rows_are_cut;
pub use listing::{rows_of, rows_within};
pub use pruning::prune;
pub use row::Row;
pub use table::Rows;
