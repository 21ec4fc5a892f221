//! The chunks of columns.

ghost use Rattle.std.specs.Prelude.{◌≡◌, ◌≤◌, ◌+◌, ◌++◌, length, true, IfOk, OnOk};
ghost use Rattle.std.specs.List.{list_all};
ghost use Rattle.dr_formats.specs.Page.{is_triplet};
ghost use Rattle.dr_levels.specs.Views.{column_view, columns_view, column_form};
ghost use Rattle.dr_meta.specs.Views.{chunk_view, chunks_view, groups_view};
ghost use Rattle.dr_page.specs.Views.{page_form_view};
ghost use Rattle.dr_write.specs.Chunks.{chunk_of, column_chunk, chunks_of, chunks_in_rows, groups_in_rows, AreFor};
ghost use Rattle.dr_write.specs.Leaves.{leaf_view, leaves_view};

use crate::counting::count_of;
use crate::cutting::page_length;
use crate::elements::type_number;
use crate::heads::{PLAIN, RLE};
use crate::leaf::Leaf;
use crate::pages::PageWriter;
use dr_levels::Column;
use dr_memory::NoMemory;
use dr_meta::{ChunkMeta, ColumnMeta, Count, GroupMeta};
use dr_page::PageForm;
use std::alloc::Global;

/// The encodings of a chunk: those of its values and of its levels.
const ENCODINGS: [i64; 2] = [PLAIN, RLE];

/// That nothing is compressed.
const UNCOMPRESSED: i64 = 0;

/// Appends the row groups of columns, with pages of this form: none without rows, else one with a chunk for each leaf.
/// Answers what the footer says of them.
///
/// Errors: want of memory alone; some bytes may have joined then.
pub(crate) fn append_groups<'t, 'a>(
    alloc: Global,
    form: PageForm,
    leaves: &'t [Leaf<'a>],
    columns: &[Column],
    rows: Count,
    out: &mut Vec<u8>,
) -> Result<Vec<GroupMeta<'t, 'a>>, NoMemory>
    requires { AreFor (leaves_view leaves.now) columns.now }
    ensures bytes { OnOk result ((out.new).items
        ≡ (out.old).items ++ (chunks_in_rows (page_form_view form) rows.number (leaves_view leaves.now)
        (columns_view columns.now) (length (out.old).items)).bytes) }
    ensures groups { IfOk result (λ v. groups_view v
        ≡ groups_in_rows rows.number (chunks_in_rows (page_form_view form) rows.number (leaves_view leaves.now)
        (columns_view columns.now) (length (out.old).items))) }
{
    let mut groups = Vec::new(alloc);
    if rows.get() == 0 {
        return Ok(groups);
    }
    let start = out.len();
    let columns = append_chunks(alloc, form, leaves, columns, out)?;
    let size = count_of((out.len() - start) as u64)?;
    groups.push(GroupMeta {
        columns,
        total_byte_size: Some(size.get() as i64),
        rows,
    })?;
    Ok(groups)
}

/// Appends the chunks of columns, one for each leaf.
fn append_chunks<'t, 'a>(
    alloc: Global,
    form: PageForm,
    leaves: &'t [Leaf<'a>],
    columns: &[Column],
    out: &mut Vec<u8>,
) -> Result<Vec<ChunkMeta<'t, 'a>>, NoMemory>
    requires { AreFor (leaves_view leaves.now) columns.now }
    ensures bytes { OnOk result ((out.new).items
        ≡ (out.old).items ++ (chunks_of (page_form_view form) (leaves_view leaves.now) (columns_view columns.now)
        (length (out.old).items)).bytes) }
    ensures chunks { IfOk result (λ v. chunks_view v
        ≡ (chunks_of (page_form_view form) (leaves_view leaves.now) (columns_view columns.now)
        (length (out.old).items)).columns) }
{
    let mut pages = PageWriter::new(alloc);
    let mut chunks = Vec::with_capacity(alloc, leaves.len())?;
    'leaves: for index in 0..leaves.len() {
        let leaf = &leaves[index];
        let column = &columns[index];
        let place = out.len();
        append_chunk(&mut pages, form, column, leaf.max_repetition, out)?;
        chunks.push(chunk_meta(leaf, column.len(), place, out.len() - place)?)?;
    }
    Ok(chunks)
}

/// What the footer says of a leaf's chunk of so many triplets, with so many bytes at a place.
fn chunk_meta<'t, 'a>(
    leaf: &'t Leaf<'a>,
    triplets: usize,
    place: usize,
    size: usize,
) -> Result<ChunkMeta<'t, 'a>, NoMemory>
    ensures { IfOk result (λ c. chunk_view c ≡ column_chunk (leaf_view leaf.now) triplets place size) }
{
    let place = count_of(place as u64)?;
    let size = count_of(size as u64)?;
    Ok(ChunkMeta {
        file_path: None,
        file_offset: Some(place.get() as i64),
        meta: ColumnMeta {
            kind: type_number(leaf.kind),
            encodings: Some(&ENCODINGS),
            path: Some(&leaf.names),
            codec: UNCOMPRESSED,
            values: count_of(triplets as u64)?,
            uncompressed_size: Some(size.get() as i64),
            compressed_size: size,
            data_page_offset: place,
            dictionary_page_offset: None,
        },
    })
}

/// Appends the pages of a column.
fn append_chunk(
    pages: &mut PageWriter,
    form: PageForm,
    column: &Column,
    max_repetition: u8,
    out: &mut Vec<u8>,
) -> Result<(), NoMemory>
    requires repetition { max_repetition ≤ 32 }
    requires definition { (column_form column.now).greatest ≤ 32 }
    requires writable { list_all (is_triplet (column_form column.now).kind max_repetition
        (column_form column.now).greatest) (column_view column.now) ≡ true }
    ensures { OnOk result ((out.new).items ≡ (out.old).items
        ++ chunk_of (page_form_view form) (column_form column.now).kind max_repetition (column_form column.now).greatest
        (column_view column.now)) }
{
    let mut rest = column.triplets();
    'pages: while rest.len() > 0 {
        let (page, behind) = rest.split_at(page_length(rest));
        pages.append(form, page, max_repetition, out)?;
        rest = behind;
    }
    Ok(())
}
