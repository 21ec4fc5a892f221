//! The header of a page. Numbers of 32 bits are kept in 64, as they are read.

use crate::count::Count;

/// What stands before a data page of the first version.
#[derive(Clone, Copy)]
pub struct DataPage {
    pub values: Count,
    pub encoding: i64,
    pub definition_encoding: i64,
    pub repetition_encoding: i64,
}

/// What stands before a dictionary page.
#[derive(Clone, Copy)]
pub struct DictionaryPage {
    pub values: Count,
    pub encoding: i64,
}

/// What stands before a data page of the second version.
#[derive(Clone, Copy)]
pub struct DataPageV2 {
    pub values: Count,
    pub nulls: Option<i64>,
    pub rows: Option<i64>,
    pub encoding: i64,
    pub definition_bytes: Count,
    pub repetition_bytes: Count,
    /// Whether the values are compressed.
    pub compressed: Option<bool>,
}

/// The header of a page: its type, the sizes of its body, and what stands before a page of each type.
#[derive(Clone, Copy)]
pub struct PageHead {
    pub kind: i64,
    pub uncompressed_size: Option<i64>,
    pub compressed_size: Count,
    pub data_page: Option<DataPage>,
    pub dictionary_page: Option<DictionaryPage>,
    pub data_page_v2: Option<DataPageV2>,
}
