//! Whether columns are those of records.

ghost use Rattle.std.specs.Prelude.{◌≡◌, List, map, true, IfOk, IsErrOf};
ghost use Rattle.std.specs.List.{list_all};
ghost use Rattle.dr_meaning.specs.Schema as tree;
ghost use Rattle.dr_meaning.specs.Path.{is_leaf_path};
ghost use Rattle.dr_meaning.specs.Record as record_tree;
ghost use Rattle.dr_nested.specs.Views.{fields_view};
ghost use Rattle.dr_nested.specs.PathView.{lent_path};
ghost use Rattle.dr_levels.specs.Views.{triplets_view};
ghost use Rattle.dr_walk.specs.Walking.{HasColumns, NoneHas};
ghost use Rattle.dr_walk.specs.declared.fault.AssembleFault.{AssembleFault};
ghost use Rattle.dr_assemble.specs.Ordered.{OrderedIn};
ghost use Rattle.dr_assemble.specs.Restoring.{columns_of, rests};
ghost use Rattle.dr_assemble.specs.Views.{strips_view};

use crate::distinct::distinct;
use crate::strip::Strip;
use dr_levels::Triplets;
use dr_nested::{Schema, Step};
use dr_walk::{AssembleFault, check_columns};
use std::alloc::{AllocError, Global};

/// The paths of strips.
fn paths_in<'a>(alloc: Global, strips: &[Strip<'a>]) -> Result<Vec<&'a [Step]>, AllocError>
    ensures { IfOk result (λ v. map lent_path v.items ≡ rests (strips_view strips.now)) }
{
    let mut paths = Vec::with_capacity(alloc, strips.len())?;
    'strips: for strip in strips {
        paths.push(strip.rest)?;
    }
    Ok(paths)
}

/// The triplets of strips.
fn columns_in<'a>(alloc: Global, strips: &[Strip<'a>]) -> Result<Vec<Triplets<'a>>, AllocError>
    ensures { IfOk result (λ v. map triplets_view v.items ≡ columns_of (strips_view strips.now)) }
{
    let mut columns = Vec::with_capacity(alloc, strips.len())?;
    'strips: for strip in strips {
        columns.push(strip.triplets)?;
    }
    Ok(columns)
}

/// Whether so many records of the schema have the triplets of these strips, of leaves in schema order: strips of one
/// leaf have to be the same, and of each leaf one is walked over.
///
/// Errors: `BadData` exactly where no such records have them; want of memory.
pub fn judge(
    alloc: Global,
    schema: &Schema,
    strips: &[Strip<'_>],
    rows: u64,
) -> Result<(), AssembleFault>
    requires leaves { list_all (is_leaf_path (fields_view (schema.now).fields.items)) (rests (strips_view strips.now))
        ≡ true }
    requires order { OrderedIn (tree.group (fields_view (schema.now).fields.items)) (rests (strips_view strips.now)) }
    ensures have { IfOk result (λ u. (R : List record_tree.Node) × HasColumns (fields_view (schema.now).fields.items)
        (rests (strips_view strips.now)) (columns_of (strips_view strips.now)) rows R) }
    ensures none { IsErrOf result AssembleFault.BadData → NoneHas (fields_view (schema.now).fields.items)
        (rests (strips_view strips.now)) (columns_of (strips_view strips.now)) rows }
{
    match distinct(alloc, strips)? {
        Some(kept) => {
            let paths = paths_in(alloc, &kept)?;
            let columns = columns_in(alloc, &kept)?;
            check_columns(alloc, schema, &paths, &columns, rows)
        }
        None => Err(AssembleFault::BadData),
    }
}
