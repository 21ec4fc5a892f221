//! What a walk's moves put into groups is the partial of a group query, and the objects that they make are those of a
//! record query.
//! specs/Lib.antt is the table of contents of the definitions; each function here has an empty body, and its contract
//! is a law.
#![tactic(auto)]

pub mod object_laws;
pub mod put_laws;
