//! The leaves of a schema on which paths end.

ghost use Rattle.std.specs.Prelude.{◌≡◌, map, filter, IfOk};
ghost use Rattle.std.specs.List.{list_any};
ghost use Rattle.dr_meaning.specs.Path as path_meaning;
ghost use Rattle.dr_meaning.specs.QueryLeaves.{in_reading_order};
ghost use Rattle.dr_nested.specs.PathView.{path_view, step_view, lent_path};
ghost use Rattle.dr_nested.specs.SchemaView.{schema_view};

use crate::copying::paths_at;
use crate::leaves::leaf_paths;
use crate::paths::same_path;
use dr_levels::reading_order;
use dr_memory::NoMemory;
use dr_nested::{Path, Schema, Step};
use std::alloc::Global;

/// The leaves of a schema on which paths of the list end, each once, in reading order.
///
/// Errors: want of memory alone.
pub fn used_leaves(alloc: Global, schema: &Schema, used: &[&[Step]]) -> Result<Vec<Path>, NoMemory>
    ensures { IfOk result (λ v. map path_view v.items
        ≡ in_reading_order (schema_view schema.now).fields
        (filter (λ (l : path_meaning.Leaf). list_any (path_meaning.same_path l.path) (map lent_path used.now))
        (path_meaning.leaves (schema_view schema.now).fields))) }
{
    let mut paths = leaf_paths(alloc, schema)?;
    keep_used(&mut paths, used);
    let order = reading_order(alloc, schema, &paths)?;
    paths_at(alloc, &paths, &order)
}

/// Keeps the paths that are the same as some path of the list.
fn keep_used(paths: &mut Vec<Path>, used: &[&[Step]])
    ensures { map path_view (paths.new).items
        ≡ filter (λ (l : path_meaning.Leaf). list_any (path_meaning.same_path l.path) (map lent_path used.now))
        (map path_view (paths.old).items) }
{
    paths.retain(|path| is_used(&path.steps, used));
}

/// Whether a path is the same as some path of the list.
fn is_used(path: &[Step], used: &[&[Step]]) -> bool
    ensures { result ≡ list_any (λ u. path_meaning.same_path (map step_view path.now) (lent_path u)) used.now }
{
    used.iter().any(|other| same_path(path, other))
}
