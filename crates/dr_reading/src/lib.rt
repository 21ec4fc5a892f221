//! The definitions of reading a table: its tablets, each from the first of its copies that gives records, and what is
//! left; and of serving it by several links. specs/Lib.antt is their table of contents; each function here has an empty
//! body, and its contract is a law.
#![tactic(auto)]

pub mod reading_laws;
pub mod serving_laws;
