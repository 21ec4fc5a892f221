//! The ids of fields (parquet.thrift).

pub(crate) mod schema_element {
    pub(crate) const KIND: u8 = 1;

    pub(crate) const KIND_LENGTH: u8 = 2;

    pub(crate) const REPETITION: u8 = 3;

    pub(crate) const NAME: u8 = 4;

    pub(crate) const CHILDREN: u8 = 5;

    pub(crate) const CONVERTED: u8 = 6;
}

pub(crate) mod file_meta {
    pub(crate) const VERSION: u8 = 1;

    pub(crate) const SCHEMA: u8 = 2;

    pub(crate) const ROWS: u8 = 3;

    pub(crate) const GROUPS: u8 = 4;

    pub(crate) const CREATED_BY: u8 = 6;
}

pub(crate) mod row_group {
    pub(crate) const COLUMNS: u8 = 1;

    pub(crate) const TOTAL_BYTE_SIZE: u8 = 2;

    pub(crate) const ROWS: u8 = 3;
}

pub(crate) mod column_chunk {
    pub(crate) const FILE_PATH: u8 = 1;

    pub(crate) const FILE_OFFSET: u8 = 2;

    pub(crate) const META: u8 = 3;
}

pub(crate) mod column_meta {
    pub(crate) const KIND: u8 = 1;

    pub(crate) const ENCODINGS: u8 = 2;

    pub(crate) const PATH: u8 = 3;

    pub(crate) const CODEC: u8 = 4;

    pub(crate) const VALUES: u8 = 5;

    pub(crate) const UNCOMPRESSED_SIZE: u8 = 6;

    pub(crate) const COMPRESSED_SIZE: u8 = 7;

    pub(crate) const DATA_PAGE_OFFSET: u8 = 9;

    pub(crate) const DICTIONARY_PAGE_OFFSET: u8 = 11;
}

pub(crate) mod page_header {
    pub(crate) const KIND: u8 = 1;

    pub(crate) const UNCOMPRESSED_SIZE: u8 = 2;

    pub(crate) const COMPRESSED_SIZE: u8 = 3;

    pub(crate) const DATA_PAGE: u8 = 5;

    pub(crate) const DICTIONARY_PAGE: u8 = 7;

    pub(crate) const DATA_PAGE_V2: u8 = 8;
}

pub(crate) mod data_page {
    pub(crate) const VALUES: u8 = 1;

    pub(crate) const ENCODING: u8 = 2;

    pub(crate) const DEFINITION_ENCODING: u8 = 3;

    pub(crate) const REPETITION_ENCODING: u8 = 4;
}

pub(crate) mod dictionary_page {
    pub(crate) const VALUES: u8 = 1;

    pub(crate) const ENCODING: u8 = 2;
}

pub(crate) mod data_page_v2 {
    pub(crate) const VALUES: u8 = 1;

    pub(crate) const NULLS: u8 = 2;

    pub(crate) const ROWS: u8 = 3;

    pub(crate) const ENCODING: u8 = 4;

    pub(crate) const DEFINITION_BYTES: u8 = 5;

    pub(crate) const REPETITION_BYTES: u8 = 6;

    pub(crate) const COMPRESSED: u8 = 7;
}
