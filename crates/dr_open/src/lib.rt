//! What of a file's schema is open to be read: where the column of a schema's leaf is in the file, and the open part of
//! the file's schema (Apache Parquet, parquet.thrift, SchemaElement).
#![tactic(auto)]

mod column_source;
mod element;
mod lacking;
mod names;
mod opening;
mod place;
mod skipping;
mod source;
mod stand_in;

pub use column_source::{LeafSource, StandIn};
pub use opening::open_schema;
pub use place::leaf_place;
pub use source::leaf_source;
