//! What the row groups of a footer say of leaves.

ghost use Rattle.std.specs.Prelude.{◌≡◌, ◌<◌, ◌^◌, ℕ, map, option_map, true, IfOk, IfErr};
ghost use Rattle.std.specs.List.{list_all};
ghost use Rattle.dr_formats.specs.File.{is_whole_group, chunk_values};
ghost use Rattle.dr_formats.specs.FileSchema.{file_schema};
ghost use Rattle.dr_meta.specs.OneTree.{count_leaves};
ghost use Rattle.dr_meta.specs.Views.{file_view, group_view};
ghost use Rattle.dr_file.specs.Groups.{lent_meta, chunk_of, are_rows, are_triplets, is_uncompressed_at};
ghost use Rattle.dr_file.specs.Openings.{footer_with, IsNoFooter};

use crate::fault::OpenFault;
use dr_meta::{ColumnMeta, FileMeta, GroupMeta, count_leaves};
use std::alloc::Global;

/// How many rows a file may have.
const MOST_ROWS: u64 = 1_000_000_000;

/// How many triplets of a leaf a file may have.
const MOST_TRIPLETS: u64 = 1 << 40;

/// The number of the codec UNCOMPRESSED.
const UNCOMPRESSED: i64 = 0;

/// Whether a row group has so many columns, none of them in another file.
fn is_whole(group: &GroupMeta<'_, '_>, leaves: usize) -> bool
    ensures { result ≡ is_whole_group leaves (group_view group.now) }
{
    if group.columns.len() != leaves {
        return false;
    }
    'chunks: for chunk in &group.columns {
        if chunk.file_path.is_some() {
            return false;
        }
    }
    true
}

/// Whether each row group has so many columns, none of them in another file.
fn are_whole(groups: &[GroupMeta<'_, '_>], leaves: usize) -> bool
    ensures { result ≡ list_all (is_whole_group leaves) (map group_view groups.now) }
{
    'groups: for group in groups {
        if !is_whole(group, leaves) {
            return false;
        }
    }
    true
}

/// How many leaves a file of this metadata has: its elements are one tree, and each row group has a column for each of
/// them, none in another file.
///
/// Errors: the metadata is that of no footer; want of memory.
pub(crate) fn whole_leaves(alloc: Global, meta: &FileMeta<'_, '_>) -> Result<usize, OpenFault>
    ensures leaves { IfOk result (λ n. option_map count_leaves (file_schema (file_view meta.now).schema) ≡ Some n) }
    ensures whole { IfOk result (λ n. list_all (is_whole_group n) (file_view meta.now).groups ≡ true) }
    ensures fault { (place : ℕ) → IfErr result (λ e. IsNoFooter e (footer_with place (file_view meta.now))) }
{
    let Some(leaves) = count_leaves(alloc, &meta.schema)? else {
        return Err(OpenFault::BadFooter);
    };
    if !are_whole(&meta.groups, leaves) {
        return Err(OpenFault::BadFooter);
    }
    Ok(leaves)
}

/// The chunk at a place of a row group.
pub(crate) fn chunk_at<'g, 't, 'a>(
    group: &'g GroupMeta<'t, 'a>,
    place: usize,
) -> Option<&'g ColumnMeta<'t, 'a>>
    ensures { option_map lent_meta result ≡ chunk_of place (group_view group.now) }
{
    let chunk = group.columns.get(place)?;
    Some(&chunk.meta)
}

/// Whether the chunk at a place of a row group is not compressed, if it is there.
fn is_uncompressed(group: &GroupMeta<'_, '_>, place: usize) -> bool
    ensures { result ≡ is_uncompressed_at place (group_view group.now) }
{
    match chunk_at(group, place) {
        Some(chunk) => chunk.codec == UNCOMPRESSED,
        None => true,
    }
}

/// Whether the chunk at a place is not compressed in any row group.
pub(crate) fn are_uncompressed(groups: &[GroupMeta<'_, '_>], place: usize) -> bool
    ensures { result ≡ list_all (is_uncompressed_at place) (map group_view groups.now) }
{
    'groups: for group in groups {
        if !is_uncompressed(group, place) {
            return false;
        }
    }
    true
}

/// Whether so many rows are those of the row groups, and not too many.
pub(crate) fn rows_agree(groups: &[GroupMeta<'_, '_>], rows: u64) -> bool
    ensures { result ≡ are_rows (map group_view groups.now) rows }
{
    let mut total = 0;
    'groups: for group in groups {
        total += group.rows.get();
        if total > MOST_ROWS {
            return false;
        }
    }
    total == rows
}

/// How many triplets the chunk at a place of a row group has, if it is there.
fn triplet_count(group: &GroupMeta<'_, '_>, place: usize) -> u64
    ensures count { result ≡ chunk_values (chunk_of place (group_view group.now)) }
    ensures within { result < 2 ^ 63 }
{
    match chunk_at(group, place) {
        Some(chunk) => chunk.values.get(),
        None => 0,
    }
}

/// Whether the chunks at a place have not too many triplets together.
pub(crate) fn triplets_fit(groups: &[GroupMeta<'_, '_>], place: usize) -> bool
    ensures { result ≡ are_triplets (map group_view groups.now) place }
{
    let mut total = 0;
    'groups: for group in groups {
        total += triplet_count(group, place);
        if total > MOST_TRIPLETS {
            return false;
        }
    }
    true
}
