//! The rows of a record.

ghost use Rattle.std.specs.Prelude.{◌≡◌, ◌≤◌, length, map, take, IfOk};
ghost use Rattle.dr_nested.specs.Views.{node_view};
ghost use Rattle.dr_nested.specs.PathView.{step_view};
ghost use Rattle.dr_rows.specs.Views.{rows_width, AreRowsOf, OverCut};

use crate::instance_ref::InstanceRef;
use crate::row::Row;
use crate::table::Rows;
use crate::walking::{walk, walk_from_end};
use dr_nested::{NoMemory, Node, Path, Step};
use std::alloc::Global;

/// The rows of a record of a chain, in order: of each the values of the leaves, and the instance at the chain's end.
/// Nothing of the record is copied.
///
/// Errors: want of memory alone.
pub fn rows_of<'n>(
    alloc: Global,
    leaves: &[Path],
    chain: &[Step],
    whole: &'n Node,
) -> Result<Rows<'n>, NoMemory>
    ensures width { IfOk result (λ t. rows_width t ≡ length leaves.now) }
    ensures rows { IfOk result (AreRowsOf leaves.now (map step_view chain.now) (node_view whole.now)) }
{
    let mut values = Vec::new(alloc);
    values.resize(leaves.len(), None)?;
    let mut rows = Rows::new(alloc, leaves.len());
    walk(
        leaves,
        chain,
        0,
        InstanceRef::Group(whole),
        &mut values,
        &mut rows,
    )?;
    Ok(rows)
}

/// The rows of a chain within a row that is cut along the chain's first steps, in order: where these end nowhere, the
/// row itself. Nothing of the record is copied.
///
/// Errors: want of memory alone.
pub fn rows_within<'n>(
    alloc: Global,
    leaves: &[Path],
    chain: &[Step],
    depth: usize,
    row: Row<'_, 'n>,
) -> Result<Rows<'n>, NoMemory>
    requires depth { depth ≤ length chain.now }
    requires values { length row.values.now ≡ length leaves.now }
    ensures width { IfOk result (λ t. rows_width t ≡ length leaves.now) }
    ensures rows { IfOk result (λ t. OverCut leaves.now (map step_view (take depth chain.now)) row.entry (λ whole.
        AreRowsOf leaves.now (map step_view chain.now) whole t)) }
{
    let mut values = Vec::from_slice(alloc, row.values)?;
    let mut rows = Rows::new(alloc, leaves.len());
    walk_from_end(leaves, chain, depth, row.end, &mut values, &mut rows)?;
    Ok(rows)
}
