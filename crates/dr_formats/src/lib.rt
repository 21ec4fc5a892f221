//! The definitions of bytes and files, and laws over them. specs/Lib.antt is the table of contents of the definitions;
//! each function here has an empty body, and its contract is a law.
#![tactic(auto)]

pub mod compact_laws;
pub mod file_laws;
pub mod hybrid_laws;
pub mod page_laws;
pub mod table_laws;
pub mod tablet_laws;
pub mod varint_laws;
pub mod writing_laws;
