//! The rows of what a condition keeps of a record, and what fires at leaves over moves that a condition cuts.
//! specs/Lib.antt is the table of contents of the definitions; each function here has an empty body, and its contract
//! is a law.
#![tactic(auto)]

pub mod pruning_laws;
pub mod row_laws;
