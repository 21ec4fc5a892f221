//! Laws of the query language and of its rewriting that no other crate rests on. Each function has an empty body, and
//! its contract is a law.
#![tactic(auto)]

pub mod binding_laws;
pub mod chain_laws;
pub mod fault_laws;
pub mod find_laws;
pub mod limit_laws;
pub mod nesting_laws;
pub mod read_back_laws;
