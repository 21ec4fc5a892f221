//! Which leaf of a file a leaf of a schema is.

ghost use Rattle.std.specs.Prelude.{◌≡◌, ◌&&◌, ◌<◌, ◌≤◌, map, length, IsSome, IfSome};
ghost use Rattle.dr_meaning.specs.Schema as tree;
ghost use Rattle.dr_formats.specs.FileSchema.{file_schema, is_leaf_for, repetition_from};
ghost use Rattle.dr_meta.specs.Views.{item_view};
ghost use Rattle.dr_nested.specs.Views.{rep_view};
ghost use Rattle.dr_nested.specs.PathView.{path_view};
ghost use Rattle.dr_open.specs.LeafView.{leaf_view};
ghost use Rattle.dr_open.specs.Places.{passed, place_in_file, place_in_shape, place_among, shape_from, leaf_of_element, is_repetition};

use crate::element::{has_repetition, is_open_as};
use crate::names::is_short_name;
use crate::skipping::field_named;
use dr_meta::{SchemaItem, group_size};
use dr_nested::{Kind, Path, Rep, Step};

/// Whether a path has ended at an element that is an open leaf of this kind.
fn is_here(item: &SchemaItem<'_>, names: &[String], steps: &[Step], kind: Kind) -> bool
    ensures { result ≡ is_leaf_for (leaf_view names.now steps.now kind) (leaf_of_element (item_view item.now)) }
{
    names.is_empty() && steps.is_empty() && is_open_as(item, kind)
}

/// Whether a path goes on at the first field of this name: the name is open, and the repetition the same.
pub(crate) fn is_on_way(item: &SchemaItem<'_>, name: &[u8], rep: Rep) -> bool
    ensures { result ≡ (tree.is_short_name name.now && is_repetition (rep_view rep)
        (repetition_from item.now.repetition)) }
{
    is_short_name(name) && has_repetition(item, rep)
}

/// The place of a leaf among those of an element's shape, below which these names and steps lead to it.
#[cycle(place)]
fn place_below(
    item: &SchemaItem<'_>,
    behind: &[SchemaItem<'_>],
    names: &[String],
    steps: &[Step],
    kind: Kind,
) -> Option<usize>
    requires { IsSome (shape_from (item_view item.now) (map item_view behind.now)) }
    ensures place { result ≡ place_in_shape (leaf_view names.now steps.now kind) (item_view item.now)
        (map item_view behind.now) }
    ensures within { IfSome result (λ i. i ≤ length behind.now) }
{
    match group_size(item) {
        Some(fields) => place_in_group(fields, behind, names, steps, kind),
        None if is_here(item, names, steps, kind) => Some(0),
        None => None,
    }
}

/// The same among the next so many fields of a group.
#[cycle(place)]
fn place_in_group(
    fields: u64,
    items: &[SchemaItem<'_>],
    names: &[String],
    steps: &[Step],
    kind: Kind,
) -> Option<usize>
    requires { IsSome (passed fields (map item_view items.now)) }
    ensures place { result ≡ place_among (leaf_view names.now steps.now kind) fields (map item_view items.now) }
    ensures within { IfSome result (λ i. i < length items.now) }
{
    let (name, names) = names.split_first()?;
    let (step, steps) = steps.split_first()?;
    let name = name.as_bytes();
    let found = field_named(fields, items, name)?;
    if !is_on_way(found.item, name, step.rep) {
        return None;
    }
    let inside = place_below(found.item, found.behind, names, steps, kind)?;
    Some(found.before + inside)
}

/// The place of a schema's leaf among the leaves of a file, whose schema elements these are: from 0, in depth-first
/// order. It is the leaf of the same names on its path, with the same repetition at each, and of the same kind; in each
/// group on the way only the first field of a name is open, so there is one at most. None where there is no such leaf.
///
/// The list is gone through once, up to the leaf; of the path's parts, at most 32, each is one level of recursion.
pub fn leaf_place(items: &[SchemaItem<'_>], path: &Path) -> Option<usize>
    // The elements are one tree, as where `dr_meta::count_leaves` gives a number.
    requires { IsSome (file_schema (map item_view items.now)) }
    ensures { result ≡ place_in_file (path_view path.now) (file_schema (map item_view items.now)) }
{
    let (root, rest) = items.split_first()?;
    place_below(root, rest, &path.names, &path.steps, path.kind)
}
