//! The values of `load`.

ghost use Rattle.std.specs.Prelude.{◌<◌, ◌≤◌, length};

use crate::page_version::PageVersion;

/// The values of `load`.
#[derive(Drop)]
pub struct Load {
    /// The path of the schema.
    pub schema: String,
    /// Where the table file is put.
    pub table: String,
    /// How many records a tablet gets, from 1 to 1,000,000.
    pub rows: u32,
    /// How many copies there are of each tablet, from 1 to 64.
    pub copies: u32,
    /// The version of the data pages of each tablet.
    pub pages: PageVersion,
    /// The directories of the leaves, from 1 to 64.
    pub directories: Vec<String>,
    pub ghost has_rows: { 0 < rows },
    pub ghost few_rows: { rows ≤ 1000000 },
    pub ghost has_copy: { 0 < copies },
    pub ghost few_directories: { length directories.items ≤ 64 },
}
