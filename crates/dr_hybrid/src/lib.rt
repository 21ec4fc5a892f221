//! The RLE / bit-packing hybrid of Apache Parquet (Encodings, "Run Length Encoding / Bit-Packing Hybrid"), without the
//! length before it: levels and dictionary indices, written in bulk and read in bulk or a piece at a time.
#![tactic(auto)]

mod decoding;
mod encoding;
mod fitting;
mod packable;
mod reading;
mod run_reader;
mod runs;
mod single_groups;
mod unpacking;
mod unread;
mod words;
mod writing;

pub use decoding::decode;
pub use encoding::encode;
pub use fitting::are_of_width;
pub use packable::Packable;
pub use run_reader::RunReader;
pub use runs::{GREATEST_WIDTH, Packed, Run, Runs, Short};
