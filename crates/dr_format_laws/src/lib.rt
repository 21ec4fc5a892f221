//! Laws of the definitions of files that no other crate rests on. Each function has an empty body, and its contract is
//! a law.
#![tactic(auto)]

pub mod struct_fault_laws;
pub mod table_fault_laws;
pub mod widening_laws;
