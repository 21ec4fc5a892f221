//! Where the column of a leaf is in a file.

ghost use Rattle.std.specs.Prelude.{◌≡◌, ◌<◌, map, length, option_map, option_and_then, IsSome, IfOk, IfSome, IfNone};
ghost use Rattle.dr_formats.specs.FileSchema.{file_schema};
ghost use Rattle.dr_meta.specs.Views.{item_view};
ghost use Rattle.dr_nested.specs.PathView.{path_view};
ghost use Rattle.dr_open.specs.Sources.{source_in_file, lacking_in_file, IsLackingGroup, source_of_group};
ghost use Rattle.dr_open.specs.SourceViews.{source_view, IsPlaced};

use crate::column_source::{LeafSource, StandIn};
use crate::lacking::{LackingGroup, lacking_group};
use crate::opening::open_fields;
use crate::place::leaf_place;
use crate::stand_in::{first_leaf_behind, group_levels};
use dr_memory::NoMemory;
use dr_meta::{SchemaItem, group_size};
use dr_nested::{GREATEST_DEPTH, Path};
use std::alloc::Global;

/// The group of a file that lacks a part of a leaf's path.
fn lacking_in<'t, 'a>(items: &'t [SchemaItem<'a>], path: &Path) -> Option<LackingGroup<'t, 'a>>
    requires { IsSome (file_schema (map item_view items.now)) }
    ensures none { IfNone result (lacking_in_file (path_view path.now) (file_schema (map item_view items.now)) ≡ None) }
    ensures some { IfSome result (λ g. IsLackingGroup g.parts g.fields (map item_view g.items.now)
        (lacking_in_file (path_view path.now) (file_schema (map item_view items.now)))) }
    ensures names { IfSome result (λ g. g.parts < length (path.now).names.items) }
    ensures steps { IfSome result (λ g. g.parts < length (path.now).steps.items) }
{
    let (root, rest) = items.split_first()?;
    let fields = group_size(root)?;
    lacking_group(fields, rest, &path.names, &path.steps)
}

/// The source of a leaf of which this group, which isn't the record itself, lacks a part.
fn other_source(
    alloc: Global,
    items: &[SchemaItem<'_>],
    path: &Path,
    group: LackingGroup<'_, '_>,
) -> Result<Option<LeafSource>, NoMemory>
    requires tree { IsSome (file_schema (map item_view items.now)) }
    requires inner { 0 < group.parts }
    requires names { group.parts < length (path.now).names.items }
    requires steps { group.parts < length (path.now).steps.items }
    requires group { IsLackingGroup group.parts group.fields (map item_view group.items.now)
        (lacking_in_file (path_view path.now) (file_schema (map item_view items.now))) }
    ensures source { IfOk result (λ o. option_map source_view o ≡ option_and_then (source_of_group (path_view path.now))
        (lacking_in_file (path_view path.now) (file_schema (map item_view items.now)))) }
    ensures placed { IfOk result (λ o. IfSome o
        (IsPlaced (path_view path.now) (file_schema (map item_view items.now)))) }
{
    let depth = GREATEST_DEPTH - group.parts;
    let opened = open_fields(alloc, group.fields, group.items, depth, 1)?.fields;
    let Some(leaf) = first_leaf_behind(alloc, path, group.parts, &opened)? else {
        return Ok(None);
    };
    let Some(place) = leaf_place(items, &leaf) else {
        unreachable!()
    };
    let levels = group_levels(&path.steps[..group.parts]);
    Ok(Some(LeafSource::Other(StandIn {
        leaf,
        place,
        repetition: levels.repetition,
        definition: levels.definition,
    })))
}

/// The source of a leaf that is none of the file's.
fn lacking_source(
    alloc: Global,
    items: &[SchemaItem<'_>],
    path: &Path,
) -> Result<Option<LeafSource>, NoMemory>
    requires { IsSome (file_schema (map item_view items.now)) }
    ensures source { IfOk result (λ o. option_map source_view o ≡ option_and_then (source_of_group (path_view path.now))
        (lacking_in_file (path_view path.now) (file_schema (map item_view items.now)))) }
    ensures placed { IfOk result (λ o. IfSome o
        (IsPlaced (path_view path.now) (file_schema (map item_view items.now)))) }
{
    match lacking_in(items, path) {
        Some(group) if group.parts == 0 => Ok(Some(LeafSource::Nowhere)),
        Some(group) => other_source(alloc, items, path, group),
        None => Ok(None),
    }
}

/// Where the column of a leaf is in a file, whose schema elements these are. A leaf that is an open one of the file has
/// its own chunks. Else the first part of its path for which the file's group has no field of that name is lacking: it
/// has to be optional or repeated, and the parts before it groups with the same repetitions. Where the record itself
/// lacks it the column is nowhere; else the first open leaf below the group stands in for it. None where none of this
/// holds, or nothing of the group is open.
///
/// The list is gone through a few times, with a look-up for each name of the group; the recursion is as deep as a path
/// of 32 parts.
///
/// Errors: want of memory alone.
pub fn leaf_source(
    alloc: Global,
    items: &[SchemaItem<'_>],
    path: &Path,
) -> Result<Option<LeafSource>, NoMemory>
    // The elements are one tree, as where `dr_meta::count_leaves` gives a number.
    requires { IsSome (file_schema (map item_view items.now)) }
    ensures source { IfOk result (λ o. option_map source_view o
        ≡ source_in_file (path_view path.now) (file_schema (map item_view items.now))) }
    ensures placed { IfOk result (λ o. IfSome o
        (IsPlaced (path_view path.now) (file_schema (map item_view items.now)))) }
{
    match leaf_place(items, path) {
        Some(place) => Ok(Some(LeafSource::Own(place))),
        None => lacking_source(alloc, items, path),
    }
}
