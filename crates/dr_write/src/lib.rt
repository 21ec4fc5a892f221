//! Writing Apache Parquet files: the pages, chunks and footer of the columns of records.
#![tactic(auto)]

mod chunks;
mod column_laws;
mod counting;
mod cutting;
mod elements;
mod file;
mod footer;
mod heads;
mod leaf;
mod leaves;
mod pages;

pub use column_laws::record_columns_fit;
pub use file::{write_file, write_file_as};
