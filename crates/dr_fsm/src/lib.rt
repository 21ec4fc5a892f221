//! The record assembly automaton: which leaf's column is read next, by the repetition level that comes next (Dremel
//! 2010, section 4.3 and appendix B).
#![tactic(auto)]

mod automaton;
mod state;
mod table;

pub use automaton::{Automaton, Order};
pub use state::State;
