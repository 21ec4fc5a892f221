//! The definitions that every promise is stated in, and laws over them. specs/Lib.antt is the table of contents of the
//! definitions; each function here has an empty body, and its contract is a law.
#![tactic(auto)]

pub mod binding_laws;
pub mod column_laws;
pub mod line_laws;
pub mod meaning_laws;
pub mod path_laws;
pub mod projection_laws;
pub mod schema_laws;
pub mod syntax_laws;
pub mod token_laws;
pub mod walk_laws;
