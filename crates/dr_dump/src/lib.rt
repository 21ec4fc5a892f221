//! The lines of a table's records, projected to some leaves, or the tablets that are left. No more than the columns of
//! a slice of the records is held at a time, beside the lines.
#![tactic(auto)]

mod append;
mod dumping;
mod file_lines;
mod front;
mod leaf_records;
mod slice_lines;
mod slices;
mod tablet_lines;

pub use dumping::{Dumped, dump_table};
