//! The definitions of partial answers: what a tablet's answer holds, how answers are merged up a serving tree, and the
//! queries that do it. specs/Lib.antt is their table of contents; each function here has an empty body, and its
//! contract is a law.
#![tactic(auto)]

pub mod accumulator_laws;
pub mod bound_laws;
pub mod partial_laws;
pub mod put_order;
pub mod rewriting_laws;
pub mod tree_laws;
