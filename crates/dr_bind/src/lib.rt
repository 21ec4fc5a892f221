//! Reading a query over a schema: its text becomes a tree, names become leaves, and the query a plan, or its first
//! fault is told.
#![tactic(auto)]

mod binding;
mod fault;
mod reading;

pub use binding::bind;
pub use dr_resolve::{BindFault, BindProblem, Fault};
pub use fault::{QueryFault, QueryProblem};
pub use reading::read_query;
