//! Going through the rows of a chain.

ghost use Rattle.std.specs.Prelude.{◌≡◌, ◌≤◌, ◌<◌, ◌+◌, ◌++◌, ◌∷◌, [], length, map, take, drop, OnOk};
ghost use Rattle.dr_nested.specs.PathView.{step_view, paths_view};
ghost use Rattle.dr_rows.specs.Views.{lent_cells, rows_width, RowsJoin};
ghost use Rattle.dr_rows.specs.Walking.{Keeps, rows_under, rows_under_end};

use crate::instance_ref::InstanceRef;
use crate::looking::fill;
use crate::table::Rows;
use dr_levels::ValueRef;
use dr_nested::{NoMemory, Path, Step};

/// The step of a chain at a depth.
fn step_at(chain: &[Step], depth: usize) -> Step
    requires { depth < length chain.now }
    ensures front { map step_view (take (depth + 1) chain.now)
        ≡ map step_view (take depth chain.now) ++ step_view result ∷ [] }
    ensures rest { map step_view (drop depth chain.now)
        ≡ step_view result ∷ map step_view (drop (depth + 1) chain.now) }
{
    chain[depth]
}

/// Appends the rows of a chain below an instance that stands at the end of the chain's first steps. The values are
/// those of the leaves in the row at hand: afterwards only those below that instance may be others.
///
/// Errors: want of memory alone.
pub fn walk<'n>(
    leaves: &[Path],
    chain: &[Step],
    depth: usize,
    instance: InstanceRef<'n>,
    values: &mut [Option<ValueRef<'n>>],
    rows: &mut Rows<'n>,
) -> Result<(), NoMemory>
    requires depth { depth ≤ length chain.now }
    requires values { length values.old ≡ length leaves.now }
    requires width { rows_width rows.old ≡ length leaves.now }
    ensures rows { OnOk result (RowsJoin (rows_under leaves.now chain.now depth values.old instance.entry) rows.old
        rows.new) }
    ensures others { OnOk result (Keeps (paths_view leaves.now) (map step_view (take depth chain.now))
        (lent_cells values.old) (lent_cells values.new)) }
    ensures width { rows_width rows.new ≡ rows_width rows.old }
{
    fill(leaves, &chain[..depth], instance, values);
    if depth == chain.len() {
        return rows.push(values, Some(instance));
    }
    let instances = instance.instances_at(step_at(chain, depth).place);
    if instances.is_empty() {
        return rows.push(values, None);
    }
    'instances: for below in instances {
        walk(
            leaves,
            chain,
            depth + 1,
            InstanceRef::of(below),
            values,
            rows,
        )?;
    }
    Ok(())
}

/// Appends the rows of a chain below what stands at the end of the chain's first steps: where nothing does, one row.
///
/// Errors: want of memory alone.
pub fn walk_from_end<'n>(
    leaves: &[Path],
    chain: &[Step],
    depth: usize,
    end: Option<InstanceRef<'n>>,
    values: &mut [Option<ValueRef<'n>>],
    rows: &mut Rows<'n>,
) -> Result<(), NoMemory>
    requires depth { depth ≤ length chain.now }
    requires values { length values.old ≡ length leaves.now }
    requires width { rows_width rows.old ≡ length leaves.now }
    ensures width { rows_width rows.new ≡ rows_width rows.old }
    ensures rows { OnOk result (RowsJoin (rows_under_end leaves.now chain.now depth values.old end.entry) rows.old
        rows.new) }
{
    match end {
        Some(instance) => walk(leaves, chain, depth, instance, values, rows),
        None => rows.push(values, None),
    }
}
