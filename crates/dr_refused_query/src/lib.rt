//! Public calls of the crates that read, bind, plan and run queries, each once more under the promises that it makes
//! there. That a call's own promises give these is proved here; so a wrong body that these refuse is refused by the
//! call's own crate, too. The wrong bodies stand in must-fail/, one line each.
#![tactic(auto)]

pub mod cells;
pub mod fan;
pub mod faults;
pub mod groups;
pub mod mean;
pub mod objects;
pub mod operators;
pub mod plan;
pub mod planning;
pub mod printing;
pub mod resolving;
pub mod rules;
pub mod scalar;
pub mod sql;
pub mod trees;
