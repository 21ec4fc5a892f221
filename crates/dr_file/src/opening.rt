//! Opening a file, by its footer.

ghost use Rattle.std.specs.Prelude.{◌≡◌, ◌≤◌, ℕ, length, map, true, is_some, OnOk, IfOk, IfErr};
ghost use Rattle.std.specs.List.{list_all};
ghost use Rattle.dr_formats.specs.File.{most_rows, meta_of, meta_read};
ghost use Rattle.dr_formats.specs.Metadata.{view_file as file_viewed};
ghost use Rattle.dr_formats.specs.Compact.{read_struct as struct_read};
ghost use Rattle.dr_compact.specs.Views.{tree_view};
ghost use Rattle.dr_meta.specs.Views.{file_view, group_view};
ghost use Rattle.dr_nested.specs.PathView.{path_view};
ghost use Rattle.dr_file.specs.Groups.{chunk_of, are_uncompressed_at, are_numbers_at};
ghost use Rattle.dr_file.specs.Sources.{places_read, AreBelow};
ghost use Rattle.dr_file.specs.Openings.{opened_field_view, shown_by_each, IsPlacesFault, footer_with, footer_in, footer_cause, IsOpenedAs, IsOpenFault};

use crate::fault::OpenFault;
use crate::footer::FooterBytes;
use crate::groups::{rows_agree, whole_leaves};
use crate::leaf_opening::open_fields;
use crate::opened_field::OpenedField;
use crate::places::{all_triplets_fit, all_uncompressed, find_sources, places_of};
use dr_compact::{Tree, read_struct};
use dr_meta::{FileMeta, GroupMeta, view_file};
use dr_nested::Path;
use dr_open::LeafSource;
use std::alloc::Global;

/// These leaves of a file of this metadata.
///
/// Errors: the first that holds of those that a footer shows; want of memory.
fn open_meta(
    alloc: Global,
    meta: &FileMeta<'_, '_>,
    fields: &[Path],
) -> Result<Vec<OpenedField>, OpenFault>
    ensures opened { (place : ℕ) → IfOk result
        (λ v. IsOpenedAs (footer_with place (file_view meta.now)) (map path_view fields.now) (file_view meta.now).rows
        (map opened_field_view v.items)) }
    ensures fault { (place : ℕ) → IfErr result
        (λ e. IsOpenFault e (footer_cause (map path_view fields.now) (footer_with place (file_view meta.now)))) }
    ensures rows { OnOk result ((file_view meta.now).rows ≤ most_rows) }
    ensures count { IfOk result (λ v. length v.items ≡ length fields.now) }
{
    whole_leaves(alloc, meta)?;
    match find_sources(alloc, &meta.schema, fields)? {
        Some(sources) => open_sources(alloc, &meta.groups, meta.rows.get(), fields, &sources),
        None => Err(OpenFault::BadSchema),
    }
}

/// Leaves with these sources in a file of so many rows.
///
/// Errors: a chunk is compressed; else the numbers of rows or of triplets disagree, or are too great; want of memory.
fn open_sources(
    alloc: Global,
    groups: &[GroupMeta<'_, '_>],
    rows: u64,
    fields: &[Path],
    sources: &[LeafSource],
) -> Result<Vec<OpenedField>, OpenFault>
    requires as_many { length fields.now ≡ length sources.now }
    requires there { list_all (λ i. list_all (λ g. is_some (chunk_of i g)) (map group_view groups.now))
        (places_read sources.now) ≡ true }
    requires below { AreBelow (map path_view fields.now) sources.now }
    ensures shown { IfOk result (λ v. map opened_field_view v.items
        ≡ shown_by_each (map group_view groups.now) (map path_view fields.now) sources.now) }
    ensures good { OnOk result ((are_uncompressed_at (map group_view groups.now) (places_read sources.now) ≡ true)
        × (are_numbers_at (map group_view groups.now) rows (places_read sources.now) ≡ true)) }
    ensures fault { IfErr result (λ e. IsPlacesFault e
        (are_uncompressed_at (map group_view groups.now) (places_read sources.now))
        (are_numbers_at (map group_view groups.now) rows (places_read sources.now))) }
    ensures count { IfOk result (λ v. length v.items ≡ length fields.now) }
{
    let places = places_of(alloc, sources)?;
    if !all_uncompressed(groups, &places) {
        return Err(OpenFault::BadCodec);
    }
    if !rows_agree(groups, rows) {
        return Err(OpenFault::BadData);
    }
    if !all_triplets_fit(groups, &places) {
        return Err(OpenFault::BadData);
    }
    Ok(open_fields(alloc, groups, fields, sources)?)
}

/// How many rows a file has, and these leaves of it, by the struct of its metadata.
///
/// Errors: the first that holds of those that a footer shows; want of memory.
fn open_tree(
    alloc: Global,
    tree: &Tree<'_>,
    fields: &[Path],
) -> Result<(u64, Vec<OpenedField>), OpenFault>
    ensures opened { (place : ℕ) → IfOk result
        (λ r. IsOpenedAs (footer_in place (meta_of (file_viewed (tree_view tree.now)))) (map path_view fields.now) r.0
        (map opened_field_view (r.1).items)) }
    ensures fault { (place : ℕ) → IfErr result
        (λ e. IsOpenFault e (footer_cause (map path_view fields.now)
        (footer_in place (meta_of (file_viewed (tree_view tree.now)))))) }
    ensures rows { IfOk result (λ r. r.0 ≤ most_rows) }
    ensures count { IfOk result (λ r. length (r.1).items ≡ length fields.now) }
{
    let meta = view_file(alloc, tree)?;
    let leaves = open_meta(alloc, &meta, fields)?;
    Ok((meta.rows.get(), leaves))
}

/// The same by the bytes of its footer.
///
/// Errors: the first that holds of those that a footer shows; want of memory.
pub(crate) fn open_footer(
    alloc: Global,
    footer: &FooterBytes,
    fields: &[Path],
) -> Result<(u64, Vec<OpenedField>), OpenFault>
    ensures opened { IfOk result (λ r. IsOpenedAs
        (footer_in footer.now.place (meta_read (struct_read footer.now.bytes.items))) (map path_view fields.now) r.0
        (map opened_field_view (r.1).items)) }
    ensures fault { IfErr result (λ e. IsOpenFault e
        (footer_cause (map path_view fields.now)
        (footer_in footer.now.place (meta_read (struct_read footer.now.bytes.items))))) }
    ensures rows { IfOk result (λ r. r.0 ≤ most_rows) }
    ensures count { IfOk result (λ r. length (r.1).items ≡ length fields.now) }
{
    let (tree, _) = read_struct(alloc, &footer.bytes)?;
    open_tree(alloc, &tree, fields)
}
