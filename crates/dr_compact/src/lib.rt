//! Structs in the Thrift compact protocol, as Apache Parquet has its metadata: their trees, read and written.
#![tactic(auto)]

mod appending;
mod fault;
mod headers;
mod looking;
mod numbers;
mod reading;
mod thrift_type;
mod tree;
mod values;
mod writing;

pub use fault::CompactFault;
pub use reading::{GREATEST_NESTING, read_struct};
pub use tree::{Field, Item, Map, Tree, TruthType, Values};
pub use writing::write_struct;
