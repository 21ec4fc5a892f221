//! The records of an input, one at a time, or its first refused line.
#![tactic(auto)]

mod fault;
mod reader;
mod records;

pub use fault::{InputFault, LineProblem};
pub use reader::Records;
