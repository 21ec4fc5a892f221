//! Files of Apache Parquet, opened for some leaves of a schema by their footers.
#![tactic(auto)]

mod chunk_place;
mod column;
mod fault;
mod file_fault;
mod floors;
mod footer;
mod frame;
mod groups;
mod leaf_opening;
mod leaf_stream;
mod opened;
mod opened_field;
mod opened_leaf;
mod opening;
mod places;
mod row_order;
mod schema;
mod shallow;
mod start;
mod stream;
mod telling;

pub use file_fault::FileFault;
pub use opened::Opened;
pub use schema::schema_of;
pub use stream::Stream;
