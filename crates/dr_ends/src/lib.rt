//! Where the objects of a result end among its cells.
#![tactic(auto)]

mod ends;
mod reading;

pub use ends::{end_of_lists, end_of_object, end_of_objects};
pub use reading::{cell_at, count_at, skip};
