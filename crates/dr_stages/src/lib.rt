//! Queries over the results of others, at the root: of the innermost query's result, as records, what the next one
//! makes, up to the result of the outermost.
#![tactic(auto)]

pub mod laws;
mod objects;
mod result;
mod table_plan;
mod through;

pub use objects::partial_of_objects;
pub use result::result_of;
pub use table_plan::innermost;
pub use through::partial_through;
