//! Serving a query over a table by workers, each with a link of its own; and what a query prints over a table, or over
//! an input.
#![tactic(auto)]

mod added;
mod answered;
mod answering;
mod asking;
mod closing;
mod found;
mod gated;
mod grown;
mod job;
mod lent;
mod options;
mod outcome;
mod queried;
mod served;
mod serving;
mod shelf_links;
mod steady;
mod table_job;
mod turns;

pub use added::{Added, Jobs};
pub use answering::query_table;
pub use asking::ask_input;
pub use found::Found;
pub use gated::Gated;
pub use grown::Grown;
pub use options::ServeOptions;
pub use outcome::{Outcome, Served};
pub use queried::Queried;
pub use serving::serve;
pub use table_job::TableJob;
pub use turns::work;
