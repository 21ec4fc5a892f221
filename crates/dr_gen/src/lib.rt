//! Made records: each from a number, the same each time, and a source of their lines.
#![tactic(auto)]

mod document;
mod line;
mod reading;
mod record;
mod source;
mod writing;

pub use document::{document_text, trial_query};
pub use dr_memory::NoMemory;
pub use record::node_of;
pub use source::GenSource;
