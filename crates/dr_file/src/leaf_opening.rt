//! Opening the leaves of a file.

ghost use Rattle.std.specs.Prelude.{◌≡◌, ◌<◌, ◌^◌, List, length, map, true, is_some, IfOk};
ghost use Rattle.std.specs.List.{list_all};
ghost use Rattle.dr_meaning.specs.Path.{Leaf, max_definition};
ghost use Rattle.dr_formats.specs.Metadata.{RowGroup};
ghost use Rattle.dr_formats.specs.Chunk.{chunk_start};
ghost use Rattle.dr_meta.specs.Views.{column_view, group_view};
ghost use Rattle.dr_nested.specs.PathView.{path_view};
ghost use Rattle.dr_file.specs.Groups.{chunk_of, are_triplets};
ghost use Rattle.dr_file.specs.Fields.{telling_view, is_lower};
ghost use Rattle.dr_file.specs.Sources.{place_read, places_read, IsBelow, AreBelow};
ghost use Rattle.dr_file.specs.Openings.{chunk_place_view, opened_leaf_view, opened_field_view, shown_chunk, shown_chunks, shown_at, shown_by, shown_by_each};

use crate::chunk_place::ChunkPlace;
use crate::groups::chunk_at;
use crate::opened_field::{OpenedField, Telling};
use crate::opened_leaf::OpenedLeaf;
use dr_levels::{Levels, max_d};
use dr_memory::NoMemory;
use dr_meta::{ColumnMeta, GroupMeta};
use dr_nested::Path;
use dr_open::LeafSource;
use std::alloc::Global;

/// The byte offset at which a chunk begins: that of its dictionary page, where that is above 0 and before the data,
/// else that of its data.
fn start_of(chunk: &ColumnMeta<'_, '_>) -> u64
    ensures start { result ≡ chunk_start (column_view chunk.now) }
    ensures within { result < 2 ^ 63 }
{
    let data = chunk.data_page_offset.get();
    match chunk.dictionary_page_offset {
        Some(offset) if offset > 0 && (offset as u64) < data => offset as u64,
        _ => data,
    }
}

/// The chunk of a leaf in a row group of so many rows.
fn chunk_place(rows: u64, chunk: &ColumnMeta<'_, '_>) -> ChunkPlace
    ensures { chunk_place_view result ≡ shown_chunk rows (column_view chunk.now) }
{
    ChunkPlace {
        rows,
        start: start_of(chunk),
        size: chunk.compressed_size.get(),
        values: chunk.values.get(),
    }
}

/// The chunks at a place of row groups, each of which has one.
///
/// Errors: want of memory alone.
fn chunk_places(
    alloc: Global,
    groups: &[GroupMeta<'_, '_>],
    place: usize,
) -> Result<Vec<ChunkPlace>, NoMemory>
    requires { list_all (λ g. is_some (chunk_of place g)) (map group_view groups.now) ≡ true }
    ensures { IfOk result (λ v. map (λ c. Some (chunk_place_view c)) v.items
        ≡ shown_chunks place (map group_view groups.now)) }
{
    let mut chunks = Vec::with_capacity(alloc, groups.len())?;
    'groups: for group in groups {
        match chunk_at(group, place) {
            Some(chunk) => chunks.push(chunk_place(group.rows.get(), chunk))?,
            None => unreachable!(),
        }
    }
    Ok(chunks)
}

/// A leaf whose chunks stand at a place of the row groups.
///
/// Errors: want of memory alone.
fn open_leaf(
    alloc: Global,
    groups: &[GroupMeta<'_, '_>],
    path: &Path,
    place: usize,
) -> Result<OpenedLeaf, NoMemory>
    requires there { list_all (λ g. is_some (chunk_of place g)) (map group_view groups.now) ≡ true }
    requires triplets { are_triplets (map group_view groups.now) place ≡ true }
    ensures { IfOk result (λ o. opened_leaf_view o ≡ shown_at (map group_view groups.now) (path_view path.now) place) }
{
    let steps = Vec::from_slice(alloc, &path.steps)?;
    Ok(OpenedLeaf {
        steps,
        kind: path.kind,
        chunks: chunk_places(alloc, groups, place)?,
    })
}

/// The leaf that is read for one with this source.
///
/// Errors: want of memory alone.
fn open_read(
    alloc: Global,
    groups: &[GroupMeta<'_, '_>],
    path: &Path,
    source: &LeafSource,
) -> Result<OpenedLeaf, NoMemory>
    requires there { list_all (λ i. list_all (λ g. is_some (chunk_of i g)) (map group_view groups.now))
        (place_read source.now) ≡ true }
    requires triplets { list_all (λ i. are_triplets (map group_view groups.now) i) (place_read source.now) ≡ true }
    ensures { IfOk result (λ o. opened_leaf_view o
        ≡ (shown_by (map group_view groups.now) (path_view path.now) source.now).read) }
{
    match source {
        LeafSource::Own(place) => open_leaf(alloc, groups, path, *place),
        LeafSource::Nowhere => Ok(OpenedLeaf {
            steps: Vec::new(alloc),
            kind: path.kind,
            chunks: Vec::new(alloc),
        }),
        LeafSource::Other(other) => open_leaf(alloc, groups, &other.leaf, other.place),
    }
}

/// How the column of a leaf with this source is told.
fn telling_of(source: &LeafSource) -> Telling
    ensures telling { (gs : List RowGroup) (l : Leaf) → telling_view result ≡ (shown_by gs l source.now).telling }
    ensures lower { (l : Leaf) → IsBelow l source.now → is_lower result (max_definition l.path) ≡ true }
{
    match source {
        LeafSource::Own(_) => Telling::Itself,
        LeafSource::Nowhere => Telling::Nulls,
        LeafSource::Other(other) => Telling::Outline(Levels {
            repetition: other.repetition,
            definition: other.definition,
        }),
    }
}

/// A leaf with this source.
///
/// Errors: want of memory alone.
fn open_field(
    alloc: Global,
    groups: &[GroupMeta<'_, '_>],
    path: &Path,
    source: &LeafSource,
) -> Result<OpenedField, NoMemory>
    requires there { list_all (λ i. list_all (λ g. is_some (chunk_of i g)) (map group_view groups.now))
        (place_read source.now) ≡ true }
    requires triplets { list_all (λ i. are_triplets (map group_view groups.now) i) (place_read source.now) ≡ true }
    requires below { IsBelow (path_view path.now) source.now }
    ensures { IfOk result (λ o. opened_field_view o
        ≡ shown_by (map group_view groups.now) (path_view path.now) source.now) }
{
    let read = open_read(alloc, groups, path, source)?;
    Ok(OpenedField {
        kind: path.kind,
        greatest: max_d(path) as u8,
        read,
        telling: telling_of(source),
    })
}

/// These leaves, with these sources.
///
/// Errors: want of memory alone.
pub(crate) fn open_fields(
    alloc: Global,
    groups: &[GroupMeta<'_, '_>],
    paths: &[Path],
    sources: &[LeafSource],
) -> Result<Vec<OpenedField>, NoMemory>
    requires as_many { length paths.now ≡ length sources.now }
    requires there { list_all (λ i. list_all (λ g. is_some (chunk_of i g)) (map group_view groups.now))
        (places_read sources.now) ≡ true }
    requires triplets { list_all (λ i. are_triplets (map group_view groups.now) i) (places_read sources.now) ≡ true }
    requires below { AreBelow (map path_view paths.now) sources.now }
    ensures shown { IfOk result (λ v. map opened_field_view v.items
        ≡ shown_by_each (map group_view groups.now) (map path_view paths.now) sources.now) }
    ensures count { IfOk result (λ v. length v.items ≡ length paths.now) }
{
    let mut leaves = Vec::with_capacity(alloc, paths.len())?;
    'leaves: for index in 0..paths.len() {
        leaves.push(open_field(alloc, groups, &paths[index], &sources[index])?)?;
    }
    Ok(leaves)
}
