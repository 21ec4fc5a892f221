//! The metadata of a file. Numbers of 32 bits are kept in 64, as they are read; lists are lent from the tree (`'t`),
//! names from the bytes that it was read from (`'a`).

use crate::count::Count;

/// An element of the schema: a leaf or a group.
#[derive(Clone, Copy)]
pub struct SchemaItem<'a> {
    pub kind: Option<i64>,
    pub kind_length: Option<i64>,
    pub repetition: Option<i64>,
    pub name: &'a [u8],
    /// How many fields it has, where it is a group.
    pub children: Option<i64>,
    pub converted: Option<i64>,
}

/// The metadata of a column chunk.
#[derive(Clone, Copy)]
pub struct ColumnMeta<'t, 'a> {
    pub kind: i64,
    pub encodings: Option<&'t [i64]>,
    pub path: Option<&'t [&'a [u8]]>,
    pub codec: i64,
    /// How many values it has, NULLs among them.
    pub values: Count,
    pub uncompressed_size: Option<i64>,
    pub compressed_size: Count,
    pub data_page_offset: Count,
    pub dictionary_page_offset: Option<i64>,
}

/// A column chunk.
#[derive(Clone, Copy)]
pub struct ChunkMeta<'t, 'a> {
    /// The file that it lies in, where that is another one.
    pub file_path: Option<&'a [u8]>,
    pub file_offset: Option<i64>,
    pub meta: ColumnMeta<'t, 'a>,
}

/// A row group: a chunk for each leaf.
#[derive(Drop)]
pub struct GroupMeta<'t, 'a> {
    pub columns: Vec<ChunkMeta<'t, 'a>>,
    pub total_byte_size: Option<i64>,
    pub rows: Count,
}

/// The metadata of a file.
#[derive(Drop)]
pub struct FileMeta<'t, 'a> {
    pub version: Option<i64>,
    pub schema: Vec<SchemaItem<'a>>,
    pub rows: Count,
    pub groups: Vec<GroupMeta<'t, 'a>>,
    /// The program that wrote it.
    pub created_by: Option<&'a [u8]>,
}
