//! The lines of an input, cut as they come from a source.
#![tactic(auto)]

mod cutter;
mod lines;

pub use cutter::{LineFault, Lines};
pub use lines::{LONGEST_LINE, line_limit_is_as_defined};
