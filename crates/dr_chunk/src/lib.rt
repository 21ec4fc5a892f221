//! The triplets of a column chunk of an Apache Parquet file (Apache Parquet, "Column chunks"), read page by page over a
//! link.
#![tactic(auto)]

mod byte_range;
mod chunk_reader;
mod fault;
mod header;
mod leaf_shape;
mod page_shape;
mod page_taker;
mod stretch;

pub use byte_range::ByteRange;
pub use chunk_reader::ChunkReader;
pub use fault::ChunkFault;
pub use leaf_shape::LeafShape;
