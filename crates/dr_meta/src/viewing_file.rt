//! The metadata of a file, from a tree.

ghost use Rattle.std.specs.Prelude.{map};
ghost use Rattle.dr_formats.specs.Metadata as metadata;
ghost use Rattle.dr_formats.specs.Metadata.{each, view_element, view_column_meta, view_chunk, view_group};
ghost use Rattle.dr_compact.specs.Views.{tree_view};
ghost use Rattle.dr_meta.specs.Views.{item_view, items_view, column_view, chunk_view, chunks_view, group_view, groups_view, file_view};
ghost use Rattle.dr_meta.specs.Faults.{Gives};

use crate::fault::MetaFault;
use crate::fields::{
    needed_binary, needed_count64, needed_i32, needed_struct, needed_structs, optional_binary,
    optional_i32, optional_i64, optional_names, optional_numbers,
};
use crate::file::{ChunkMeta, ColumnMeta, FileMeta, GroupMeta, SchemaItem};
use crate::ids::{column_chunk, column_meta, file_meta, row_group, schema_element};
use dr_compact::Tree;
use std::alloc::Global;

/// The metadata of a file that a struct holds. Names and lists are lent from the tree; of several fields of one id the
/// last counts, and a field that is not needed counts as not there where it has another type.
///
/// Errors: the first needed field that is missing or out of range, a struct's own before those of the structs inside
/// it; want of memory.
pub fn view_file<'t, 'a>(alloc: Global, tree: &'t Tree<'a>) -> Result<FileMeta<'t, 'a>, MetaFault>
    ensures { Gives file_view (metadata.view_file (tree_view tree.now)) result }
{
    let elements = needed_structs(tree, file_meta::SCHEMA)?;
    let rows = needed_count64(tree, file_meta::ROWS)?;
    let groups = needed_structs(tree, file_meta::GROUPS)?;
    Ok(FileMeta {
        version: optional_i32(tree, file_meta::VERSION),
        schema: view_items(alloc, elements)?,
        rows,
        groups: view_groups(alloc, groups)?,
        created_by: optional_binary(tree, file_meta::CREATED_BY),
    })
}

fn view_items<'a>(alloc: Global, trees: &[Tree<'a>]) -> Result<Vec<SchemaItem<'a>>, MetaFault>
    ensures { Gives items_view (each view_element (map tree_view trees.now)) result }
{
    let mut items = Vec::with_capacity(alloc, trees.len())?;
    'items: for tree in trees {
        items.push(view_item(tree)?)?;
    }
    Ok(items)
}

fn view_item<'a>(tree: &Tree<'a>) -> Result<SchemaItem<'a>, MetaFault>
    ensures { Gives item_view (view_element (tree_view tree.now)) result }
{
    let name = needed_binary(tree, schema_element::NAME)?;
    Ok(SchemaItem {
        kind: optional_i32(tree, schema_element::KIND),
        kind_length: optional_i32(tree, schema_element::KIND_LENGTH),
        repetition: optional_i32(tree, schema_element::REPETITION),
        name,
        children: optional_i32(tree, schema_element::CHILDREN),
        converted: optional_i32(tree, schema_element::CONVERTED),
    })
}

fn view_groups<'t, 'a>(
    alloc: Global,
    trees: &'t [Tree<'a>],
) -> Result<Vec<GroupMeta<'t, 'a>>, MetaFault>
    ensures { Gives groups_view (each metadata.view_group (map tree_view trees.now)) result }
{
    let mut groups = Vec::with_capacity(alloc, trees.len())?;
    'groups: for tree in trees {
        groups.push(view_group(alloc, tree)?)?;
    }
    Ok(groups)
}

fn view_group<'t, 'a>(alloc: Global, tree: &'t Tree<'a>) -> Result<GroupMeta<'t, 'a>, MetaFault>
    ensures { Gives group_view (metadata.view_group (tree_view tree.now)) result }
{
    let chunks = needed_structs(tree, row_group::COLUMNS)?;
    let rows = needed_count64(tree, row_group::ROWS)?;
    Ok(GroupMeta {
        columns: view_chunks(alloc, chunks)?,
        total_byte_size: optional_i64(tree, row_group::TOTAL_BYTE_SIZE),
        rows,
    })
}

fn view_chunks<'t, 'a>(
    alloc: Global,
    trees: &'t [Tree<'a>],
) -> Result<Vec<ChunkMeta<'t, 'a>>, MetaFault>
    ensures { Gives chunks_view (each metadata.view_chunk (map tree_view trees.now)) result }
{
    let mut chunks = Vec::with_capacity(alloc, trees.len())?;
    'chunks: for tree in trees {
        chunks.push(view_chunk(tree)?)?;
    }
    Ok(chunks)
}

fn view_chunk<'t, 'a>(tree: &'t Tree<'a>) -> Result<ChunkMeta<'t, 'a>, MetaFault>
    ensures { Gives chunk_view (metadata.view_chunk (tree_view tree.now)) result }
{
    let meta = view_column(needed_struct(tree, column_chunk::META)?)?;
    Ok(ChunkMeta {
        file_path: optional_binary(tree, column_chunk::FILE_PATH),
        file_offset: optional_i64(tree, column_chunk::FILE_OFFSET),
        meta,
    })
}

fn view_column<'t, 'a>(tree: &'t Tree<'a>) -> Result<ColumnMeta<'t, 'a>, MetaFault>
    ensures { Gives column_view (view_column_meta (tree_view tree.now)) result }
{
    let kind = needed_i32(tree, column_meta::KIND)?;
    let codec = needed_i32(tree, column_meta::CODEC)?;
    let values = needed_count64(tree, column_meta::VALUES)?;
    let compressed_size = needed_count64(tree, column_meta::COMPRESSED_SIZE)?;
    let data_page_offset = needed_count64(tree, column_meta::DATA_PAGE_OFFSET)?;
    Ok(ColumnMeta {
        kind,
        encodings: optional_numbers(tree, column_meta::ENCODINGS),
        path: optional_names(tree, column_meta::PATH),
        codec,
        values,
        uncompressed_size: optional_i64(tree, column_meta::UNCOMPRESSED_SIZE),
        compressed_size,
        data_page_offset,
        dictionary_page_offset: optional_i64(tree, column_meta::DICTIONARY_PAGE_OFFSET),
    })
}
