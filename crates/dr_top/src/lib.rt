//! The whole program as one call.
#![tactic(auto)]

mod commands;
mod field;
mod fields;
mod keeper_file;
mod laws;
mod left_file;
mod named_file;
mod output;
mod refusal;
mod reply;
mod report;
mod running;
mod service;
mod stop;
mod talking;
mod telling;
mod theorem;

pub use laws::{gen_refuses_nothing, served_prints_meaning};
pub use running::run;
pub use theorem::query_in_memory;
