//! Assembly: the projections of records, or their lines, of their columns.
#![tactic(auto)]

mod assembling;
mod distinct;
mod judging;
mod lines;
mod printing;
mod restoring;
mod spare;
mod strip;

pub use assembling::assemble;
pub use dr_walk::AssembleFault;
pub use lines::push_lines;
