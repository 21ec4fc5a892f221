//! The walk of records as a machine that goes over columns and makes no record. specs/Lib.antt is the table of contents
//! of the definitions; each function here has an empty body, and its contract is a law.
#![tactic(auto)]

pub mod course_laws;
pub mod cutting_laws;
pub mod firing_laws;
pub mod kept_laws;
