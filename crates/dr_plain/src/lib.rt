//! Values of a column's leaf in the encodings PLAIN and RLE_DICTIONARY of Apache Parquet (Encodings, "Plain",
//! "Dictionary Encoding"): dense vectors of their kind.
#![tactic(auto)]

mod picking;
mod plain;
mod plain_reader;
mod reading;
mod text_batch;
mod texts;
mod values;
mod writing;

pub use picking::pick;
pub use plain::{read_plain, write_plain};
pub use plain_reader::PlainReader;
pub use reading::{append_bools, append_int32s, append_int64s};
pub use texts::append_texts;
pub use values::{PickFault, PlainFault, TextPlace, Values};
pub use writing::{write_bools, write_int32s, write_int64s, write_text, write_texts};
