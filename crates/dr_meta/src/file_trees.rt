//! Trees of the metadata of a file.

ghost use Rattle.std.specs.Prelude.{◌≡◌, map, IfOk};
ghost use Rattle.dr_formats.specs.Metadata.{element_tree, column_meta_tree, chunk_tree, group_tree, file_tree};
ghost use Rattle.dr_compact.specs.Views.{tree_view};
ghost use Rattle.dr_meta.specs.Views.{item_view, column_view, chunk_view, group_view, file_view};

use crate::building::{
    put, put_count64, put_i32, put_some_binary, put_some_i32, put_some_i64, put_some_names,
    put_some_numbers, put_structs,
};
use crate::file::{ChunkMeta, ColumnMeta, FileMeta, GroupMeta, SchemaItem};
use crate::ids::{column_chunk, column_meta, file_meta, row_group, schema_element};
use dr_compact::{Item, Tree};
use dr_memory::NoMemory;
use std::alloc::Global;

/// The struct of a file's metadata: its fields in order of their ids.
///
/// Errors: want of memory alone.
pub fn tree_of_file<'a>(alloc: Global, meta: &FileMeta<'_, 'a>) -> Result<Tree<'a>, NoMemory>
    ensures { IfOk result (λ t. tree_view t ≡ file_tree (file_view meta.now)) }
{
    let mut fields = Vec::new(alloc);
    put_some_i32(&mut fields, file_meta::VERSION, meta.version)?;
    let elements = trees_of_items(alloc, &meta.schema)?;
    put_structs(&mut fields, file_meta::SCHEMA, elements)?;
    put_count64(&mut fields, file_meta::ROWS, meta.rows)?;
    let groups = trees_of_groups(alloc, &meta.groups)?;
    put_structs(&mut fields, file_meta::GROUPS, groups)?;
    put_some_binary(&mut fields, file_meta::CREATED_BY, meta.created_by)?;
    Ok(Tree { fields })
}

fn trees_of_items<'a>(alloc: Global, items: &[SchemaItem<'a>]) -> Result<Vec<Tree<'a>>, NoMemory>
    ensures { IfOk result (λ v. map tree_view v.items ≡ map (λ e. element_tree (item_view e)) items.now) }
{
    let mut trees = Vec::with_capacity(alloc, items.len())?;
    'items: for item in items {
        trees.push(tree_of_item(alloc, item)?)?;
    }
    Ok(trees)
}

fn tree_of_item<'a>(alloc: Global, item: &SchemaItem<'a>) -> Result<Tree<'a>, NoMemory>
    ensures { IfOk result (λ t. tree_view t ≡ element_tree (item_view item.now)) }
{
    let mut fields = Vec::new(alloc);
    put_some_i32(&mut fields, schema_element::KIND, item.kind)?;
    put_some_i32(&mut fields, schema_element::KIND_LENGTH, item.kind_length)?;
    put_some_i32(&mut fields, schema_element::REPETITION, item.repetition)?;
    put(&mut fields, schema_element::NAME, Item::Binary(item.name))?;
    put_some_i32(&mut fields, schema_element::CHILDREN, item.children)?;
    put_some_i32(&mut fields, schema_element::CONVERTED, item.converted)?;
    Ok(Tree { fields })
}

fn trees_of_groups<'a>(
    alloc: Global,
    groups: &[GroupMeta<'_, 'a>],
) -> Result<Vec<Tree<'a>>, NoMemory>
    ensures { IfOk result (λ v. map tree_view v.items ≡ map (λ g. group_tree (group_view g)) groups.now) }
{
    let mut trees = Vec::with_capacity(alloc, groups.len())?;
    'groups: for group in groups {
        trees.push(tree_of_group(alloc, group)?)?;
    }
    Ok(trees)
}

fn tree_of_group<'a>(alloc: Global, group: &GroupMeta<'_, 'a>) -> Result<Tree<'a>, NoMemory>
    ensures { IfOk result (λ t. tree_view t ≡ group_tree (group_view group.now)) }
{
    let chunks = trees_of_chunks(alloc, &group.columns)?;
    let mut fields = Vec::new(alloc);
    put_structs(&mut fields, row_group::COLUMNS, chunks)?;
    put_some_i64(
        &mut fields,
        row_group::TOTAL_BYTE_SIZE,
        group.total_byte_size,
    )?;
    put_count64(&mut fields, row_group::ROWS, group.rows)?;
    Ok(Tree { fields })
}

fn trees_of_chunks<'a>(
    alloc: Global,
    chunks: &[ChunkMeta<'_, 'a>],
) -> Result<Vec<Tree<'a>>, NoMemory>
    ensures { IfOk result (λ v. map tree_view v.items ≡ map (λ c. chunk_tree (chunk_view c)) chunks.now) }
{
    let mut trees = Vec::with_capacity(alloc, chunks.len())?;
    'chunks: for chunk in chunks {
        trees.push(tree_of_chunk(alloc, chunk)?)?;
    }
    Ok(trees)
}

fn tree_of_chunk<'a>(alloc: Global, chunk: &ChunkMeta<'_, 'a>) -> Result<Tree<'a>, NoMemory>
    ensures { IfOk result (λ t. tree_view t ≡ chunk_tree (chunk_view chunk.now)) }
{
    let mut fields = Vec::new(alloc);
    put_some_binary(&mut fields, column_chunk::FILE_PATH, chunk.file_path)?;
    put_some_i64(&mut fields, column_chunk::FILE_OFFSET, chunk.file_offset)?;
    let meta = tree_of_column(alloc, &chunk.meta)?;
    put(&mut fields, column_chunk::META, Item::Struct(meta))?;
    Ok(Tree { fields })
}

fn tree_of_column<'a>(alloc: Global, meta: &ColumnMeta<'_, 'a>) -> Result<Tree<'a>, NoMemory>
    ensures { IfOk result (λ t. tree_view t ≡ column_meta_tree (column_view meta.now)) }
{
    let mut fields = Vec::new(alloc);
    put_i32(&mut fields, column_meta::KIND, meta.kind)?;
    put_some_numbers(alloc, &mut fields, column_meta::ENCODINGS, meta.encodings)?;
    put_some_names(alloc, &mut fields, column_meta::PATH, meta.path)?;
    put_i32(&mut fields, column_meta::CODEC, meta.codec)?;
    put_count64(&mut fields, column_meta::VALUES, meta.values)?;
    put_some_i64(
        &mut fields,
        column_meta::UNCOMPRESSED_SIZE,
        meta.uncompressed_size,
    )?;
    put_count64(
        &mut fields,
        column_meta::COMPRESSED_SIZE,
        meta.compressed_size,
    )?;
    put_count64(
        &mut fields,
        column_meta::DATA_PAGE_OFFSET,
        meta.data_page_offset,
    )?;
    put_some_i64(
        &mut fields,
        column_meta::DICTIONARY_PAGE_OFFSET,
        meta.dictionary_page_offset,
    )?;
    Ok(Tree { fields })
}
