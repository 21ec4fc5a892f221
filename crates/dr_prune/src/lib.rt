//! The pruner: along the moves of a walk it tells which of the open branches a condition keeps.
#![tactic(auto)]

mod answers;
mod chain;
mod counts;
mod masks;
mod pruner;
pub mod pruner_laws;

pub use answers::Answers;
pub use chain::chain_numbers;
pub use pruner::Pruner;
