//! The metadata of files and pages of Apache Parquet (parquet.thrift): typed from trees of Thrift structs, and back.
#![tactic(auto)]

mod building;
mod count;
mod fault;
mod fields;
mod file;
mod file_trees;
mod ids;
mod one_tree;
mod page;
mod page_trees;
mod viewing_file;
mod viewing_page;

pub use count::Count;
pub use fault::MetaFault;
pub use file::{ChunkMeta, ColumnMeta, FileMeta, GroupMeta, SchemaItem};
pub use file_trees::tree_of_file;
pub use one_tree::{count_leaves, group_size};
pub use page::{DataPage, DataPageV2, DictionaryPage, PageHead};
pub use page_trees::tree_of_page;
pub use viewing_file::view_file;
pub use viewing_page::view_page;
