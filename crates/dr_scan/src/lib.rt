//! Scans: a tablet's records as a partial of a query, from the file at a path, or from the first of the tablet's copies
//! that gives one. Of each leaf's column a chunk of whole records is held at a time, or a batch, where a record is
//! longer than a chunk.
#![tactic(auto)]

mod chunks;
mod fault;
mod file_columns;
mod handing;
pub mod laws;
mod leaf_stream;
mod leaf_streams;
mod making;
mod of_columns;
mod opened;
mod paths;
mod rest;
mod rows;
mod scanning;
mod streaming;
mod stretch;
mod tablet;
mod take_chunks;

pub use fault::file_fault;
pub use file_columns::{FileColumns, read_file_columns};
pub use of_columns::partial_of_columns;
pub use scanning::scan;
pub use tablet::{Scanned, scan_tablet};
