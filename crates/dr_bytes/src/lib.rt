//! Numbers from bytes and to bytes: little-endian, variable-length (unsigned LEB128) and zigzag, as Apache Parquet and
//! the Thrift compact protocol have them. No call takes memory.
#![tactic(auto)]

mod cut;
mod fault;
mod reading;
mod signed;
mod spelling;

pub use cut::Cut;
pub use fault::{Short, VarintFault};
pub use signed::{from_zigzag, zigzag};
pub use spelling::{LONGEST_VARINT, Varint};
