//! Whether records have given columns.

ghost use Rattle.std.specs.Prelude.{◌≡◌, List, length, map, true, IfOk, IsErrOf};
ghost use Rattle.std.specs.List.{list_all};
ghost use Rattle.dr_meaning.specs.Path.{is_leaf_path};
ghost use Rattle.dr_meaning.specs.Record as record_tree;
ghost use Rattle.dr_nested.specs.Views.{fields_view};
ghost use Rattle.dr_levels.specs.Views.{triplets_view};
ghost use Rattle.dr_moves.specs.Selection.{all_differ};
ghost use Rattle.dr_walk.specs.Checking.{Advances, OverStanding};
ghost use Rattle.dr_walk.specs.Walking.{HasColumns, NoneHas};
ghost use Rattle.dr_walk.specs.declared.fault.AssembleFault.{AssembleFault};
ghost use Rattle.dr_nested.specs.PathView.{lent_path};

use crate::fault::AssembleFault;
use crate::taking::take_next;
use crate::walk::Walk;
use dr_levels::Triplets;
use dr_nested::{NoMemory, Schema, Step};
use std::alloc::Global;

/// The triplets of each column, to be taken.
fn copied<'a>(alloc: Global, columns: &[Triplets<'a>]) -> Result<Vec<Triplets<'a>>, NoMemory>
    ensures { IfOk result (λ v. v.items ≡ columns.now) }
{
    let mut copied = Vec::with_capacity(alloc, columns.len())?;
    copied.extend_from_slice(columns)?;
    Ok(copied)
}

/// One call of a walk, over what is left of the columns: whether it is at its end.
fn step_on<'a>(walk: &mut Walk<'a>, rests: &mut [Triplets<'a>]) -> Result<bool, AssembleFault>
    ensures { OverStanding walk.old rests.old (λ fs F C rows. Advances fs F C rows walk.new rests.new result) }
{
    let more = take_next(rests, walk.wants());
    match walk.next(more) {
        Ok(Some(_)) => Ok(false),
        Ok(None) => Ok(walk.wants().is_none()),
        Err(fault) => Err(fault),
    }
}

/// Whether so many records of the schema have these columns, one for each leaf, which is given by its path: the walk
/// over them comes to its end.
///
/// Errors: `BadData` exactly where no such records have them; want of memory.
pub fn check_columns(
    alloc: Global,
    schema: &Schema,
    fields: &[&[Step]],
    columns: &[Triplets<'_>],
    rows: u64,
) -> Result<(), AssembleFault>
    requires leaves { list_all (is_leaf_path (fields_view (schema.now).fields.items)) (map lent_path fields.now)
        ≡ true }
    requires differ { all_differ (map lent_path fields.now) ≡ true }
    requires lengths { length columns.now ≡ length fields.now }
    ensures have { IfOk result (λ u. (R : List record_tree.Node) × HasColumns (fields_view (schema.now).fields.items)
        (map lent_path fields.now) (map triplets_view columns.now) rows R) }
    ensures none { IsErrOf result AssembleFault.BadData
        → NoneHas (fields_view (schema.now).fields.items) (map lent_path fields.now) (map triplets_view columns.now)
        rows }
{
    let mut held = copied(alloc, columns)?;
    let mut walk = Walk::start(alloc, schema, fields, rows)?;
    let rests = held.as_mut_slice();
    // No memory holds columns, or records, of more moves.
    'moves: for _ in 0..u64::MAX {
        if step_on(&mut walk, rests)? {
            return Ok(());
        }
    }
    Err(AssembleFault::NoMemory)
}
