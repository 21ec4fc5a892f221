//! Loading a table: its words, the records of an input striped into tablets, each put on its leaves, and the line that
//! tells what was loaded. What a load has put is a table of its records: each function of `loaded_laws` has an empty
//! body, and its contract is a law.
#![tactic(auto)]

mod copies;
mod fault;
mod file;
mod filled;
mod filling;
mod line;
mod loaded;
pub mod loaded_laws;
mod loading;
mod plan;
mod putting;
mod words;

pub use fault::LoadFault;
pub use line::loaded_line;
pub use loaded::Loaded;
pub use loading::load;
pub use plan::Plan;
pub use words::{WordsProblem, check_words};
