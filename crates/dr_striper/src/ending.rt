//! The end of a tablet.

ghost use Rattle.std.specs.Prelude.{◌≡◌, ◌≤◌, length, drop, OnOk};
ghost use Rattle.dr_nested.specs.Views.{rep_view};
ghost use Rattle.dr_levels.specs.Views.{column_view, column_form};
ghost use Rattle.dr_striper.specs.Added as added;
ghost use Rattle.dr_striper.specs.Shapes as shapes;
ghost use Rattle.dr_striper.specs.Ended.{ended_one, ended_each, OneEnds, AllEnd};
ghost use Rattle.dr_striper.specs.Views.{nulls, twig_view, twigs_view, shape_view, shapes_view};

use crate::branch::{Branch, GroupGrown, LeafGrown};
use dr_levels::Levels;
use dr_nested::{NoMemory, Rep};

/// What has anything takes over the rest of the levels above it.
#[cycle(ending)]
pub(crate) fn end(branches: &mut [Branch], above: &[Levels]) -> Result<(), NoMemory>
    requires ends { AllEnd (nulls above.now) (shapes_view branches.old) (twigs_view branches.old) }
    ensures ended { OnOk result (twigs_view branches.new ≡ ended_each (nulls above.now) (twigs_view branches.old)) }
    ensures shapes { shapes_view branches.new ≡ shapes_view branches.old }
{
    'branches: for number in 0..branches.len() {
        end_one(&mut branches[number], above)?;
    }
    Ok(())
}

#[cycle(ending)]
fn end_one(branch: &mut Branch, above: &[Levels]) -> Result<(), NoMemory>
    requires ends { OneEnds (nulls above.now) (shape_view branch.old) (twig_view branch.old) }
    ensures ended { OnOk result (twig_view branch.new ≡ ended_one (nulls above.now) (twig_view branch.old)) }
    ensures shape { shape_view branch.new ≡ shape_view branch.old }
{
    match branch {
        Branch::Nothing => Ok(()),
        Branch::Leaf(rep, leaf) => end_leaf(*rep, leaf, above),
        Branch::Group(rep, group, inner) => {
            end_inner(*rep, group, inner, above)?;
            Ok(())
        }
    }
}

/// The levels from a place on.
pub(crate) fn behind(above: &[Levels], from: usize) -> &[Levels]
    requires { from ≤ length above.now }
    ensures { result.now ≡ drop from above.now }
{
    &above[from..]
}

fn end_leaf(rep: Rep, leaf: &mut LeafGrown, above: &[Levels]) -> Result<(), NoMemory>
    requires ends { OneEnds (nulls above.now) (shapes.leaf (rep_view rep) (column_form (leaf.old).column)) (added.leaf
        (rep_view rep) (leaf.old).seen (column_view (leaf.old).column)) }
    ensures ended { OnOk result (added.leaf (rep_view rep) (leaf.new).seen (column_view (leaf.new).column)
        ≡ ended_one (nulls above.now) (added.leaf (rep_view rep) (leaf.old).seen (column_view (leaf.old).column))) }
    ensures form { column_form (leaf.new).column ≡ column_form (leaf.old).column }
{
    if leaf.column.len() > 0 {
        leaf.catch_up(above, above.len())?;
    }
    Ok(())
}

#[cycle(ending)]
fn end_inner(
    rep: Rep,
    group: &mut GroupGrown,
    inner: &mut [Branch],
    above: &[Levels],
) -> Result<(), NoMemory>
    requires ends { OneEnds (nulls above.now) (shapes.group (rep_view rep) (shapes_view inner.old))
        (added.group (rep_view rep) (group.old).seen (nulls (group.old).levels.items) (twigs_view inner.old)) }
    ensures ended { OnOk result (added.group (rep_view rep) (group.new).seen (nulls (group.new).levels.items)
        (twigs_view inner.new)
        ≡ ended_one (nulls above.now) (added.group (rep_view rep) (group.old).seen (nulls (group.old).levels.items)
        (twigs_view inner.old))) }
    ensures shapes { shapes_view inner.new ≡ shapes_view inner.old }
{
    if group.levels.len() == 0 {
        end(inner, behind(above, group.seen))?;
    } else {
        group.catch_up(above, above.len())?;
        end(inner, &group.levels)?;
    }
    Ok(())
}
