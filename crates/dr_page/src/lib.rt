//! Bodies of data pages of Apache Parquet ("Data Pages"): repetition levels, definition levels and values, read into
//! columns and written from them in bulk.
#![tactic(auto)]

mod body_writer;
mod dictionary;
mod encoding;
mod fault;
mod index_cursor;
mod level_cursor;
mod level_lengths;
mod level_pairs;
mod level_part;
mod level_writer;
mod levels;
mod page_reader;
mod part;
mod picking;
mod rle_bools;
mod shape;
mod text_places;
mod value_cursor;
mod value_size;
mod value_writer;

pub use body_writer::BodyWriter;
pub use dictionary::Dictionary;
pub use fault::PageFault;
pub use level_lengths::LevelLengths;
pub use page_reader::PageReader;
pub use shape::{GREATEST_LEVEL, PageForm, Shape};
pub use value_size::plain_size;
