//! Schemas, records and paths as types, with their views into the definitions.
#![tactic(auto)]

mod copying;
mod fault;
mod finding;
mod fitting;
mod limits;
mod looking;
mod parsing;
mod path;
mod projecting;
mod record;
mod schema;
mod schema_tokens;
mod selection;
mod shape;
mod state;
mod writing;

pub use copying::copy_value;
pub use dr_memory::NoMemory;
pub use fault::{PathFault, PathProblem, SchemaFault, SchemaProblem};
pub use finding::find;
pub use fitting::{is_of_kind, is_record};
pub use limits::{
    GREATEST_DEPTH, LONGEST_NAME, LONGEST_SCHEMA, MOST_LEAVES, schema_limits_are_as_defined,
};
pub use looking::instances_at;
pub use parsing::parse_schema;
pub use path::{Path, Step};
pub use projecting::project;
pub use record::{Instance, Node, Slot, Value};
pub use schema::Schema;
pub use shape::{Field, Kind, Rep, Shape};
pub use writing::schema_text;
