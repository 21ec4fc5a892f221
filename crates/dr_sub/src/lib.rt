//! Results as records of a schema of their own: what a query over another query's result reads, and how such queries
//! are bound.
#![tactic(auto)]

mod binding;
mod chains;
mod fault;
mod field_name;
mod fields;
mod held;
mod names;
mod nested_fault;
mod nested_plan;
mod ordering;
mod placed;
mod reading;
mod refusal;
mod schema;
mod striping;
mod text;

pub use binding::bind_nested;
pub use fault::{ResultFault, SubFault};
pub use nested_fault::{NestedFault, NestedProblem};
pub use nested_plan::NestedPlan;
pub use placed::{Placed, PlacedList, Spot};
pub use refusal::{TextFault, TextProblem};
pub use schema::{result_schema, schema_of_result};
pub use striping::stripe_objects;
pub use text::read_nested;
