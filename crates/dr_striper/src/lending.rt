//! Columns lent.

ghost use Rattle.std.specs.Prelude.{◌≡◌, ◌≤◌, ◌<◌, length, map};
ghost use Rattle.dr_levels.specs.Views.{column_view, column_form, triplets_view, triplets_form, LeafForm};
ghost use Rattle.dr_striper.specs.Added.{grown};
ghost use Rattle.dr_meaning.specs.Schema.{Repetition};
ghost use Rattle.dr_nested.specs.PathView.{step_view, path_view};
ghost use Rattle.dr_striper.specs.Added.{twig_at, twig_column, column_in};
ghost use Rattle.dr_striper.specs.Shapes.{AllTaken, shape_at, ShapeLeads, LeadsTo};
ghost use Rattle.dr_striper.specs.Striping.{leaf_form};
ghost use Rattle.dr_striper.specs.Lent.{Lends, LendsOne};
ghost use Rattle.dr_striper.specs.Views.{nulls, twig_view, twigs_view, shape_view, shapes_view};

use crate::branch::{Branch, GroupGrown, LeafGrown};
use crate::ending::behind;
use crate::planting::behind_first;
use dr_levels::{Levels, Triplets};
use dr_nested::{Path, Step};

/// A leaf's column at the end: its own, or the levels above it where it has none.
pub(crate) fn lend_leaf<'t>(leaf: &'t LeafGrown, above: &'t [Levels]) -> Triplets<'t>
    requires seen { (leaf.now).seen ≤ length above.now }
    requires ended { 1 ≤ length (column_view (leaf.now).column) → (leaf.now).seen ≡ length above.now }
    requires taken { AllTaken (column_form (leaf.now).column) (grown (leaf.now).seen (column_view (leaf.now).column)
        (nulls above.now)) }
    ensures triplets { triplets_view result ≡ grown (leaf.now).seen (column_view (leaf.now).column) (nulls above.now) }
    ensures form { triplets_form result ≡ column_form (leaf.now).column }
{
    if leaf.column.len() == 0 {
        leaf.column.lent_nulls(behind(above, leaf.seen))
    } else {
        leaf.column.triplets()
    }
}

/// The branch at a place.
fn branch_at(branches: &[Branch], place: usize) -> &Branch
    requires { place < length branches.now }
    ensures shape { shape_view result.now ≡ shape_at place (shapes_view branches.now) }
    ensures twig { twig_view result.now ≡ twig_at place (twigs_view branches.now) }
{
    &branches[place]
}

/// The column at a path's end.
#[cycle(lending)]
pub(crate) fn lend_path<'t>(
    branches: &'t [Branch],
    above: &'t [Levels],
    steps: &[Step],
) -> Triplets<'t>
    requires lends { (f : LeafForm) × Lends (map step_view steps.now) f (nulls above.now) (shapes_view branches.now)
        (twigs_view branches.now) }
    ensures triplets { triplets_view result ≡ column_in (map step_view steps.now) (nulls above.now)
        (twigs_view branches.now) }
    ensures form { (f : LeafForm) → LeadsTo (map step_view steps.now) f (shapes_view branches.now)
        → triplets_form result ≡ f }
{
    let place = steps[0].place;
    lend_one(branch_at(branches, place), above, behind_first(steps))
}

#[cycle(lending)]
fn lend_one<'t>(branch: &'t Branch, above: &'t [Levels], rest: &[Step]) -> Triplets<'t>
    requires lends { (k : Repetition) × (f : LeafForm) × LendsOne k (map step_view rest.now) f (nulls above.now)
        (shape_view branch.now) (twig_view branch.now) }
    ensures triplets { triplets_view result ≡ twig_column (column_in (map step_view rest.now)) (nulls above.now)
        (twig_view branch.now) }
    ensures form { (k : Repetition) (f : LeafForm) → ShapeLeads k (map step_view rest.now) f (LeadsTo
        (map step_view rest.now) f) (shape_view branch.now) → triplets_form result ≡ f }
{
    match branch {
        Branch::Nothing => unreachable!(),
        Branch::Leaf(_, leaf) => lend_leaf(leaf, above),
        Branch::Group(_, group, inner) => lend_inner(group, inner, above, rest),
    }
}

#[cycle(lending)]
fn lend_inner<'t>(
    group: &'t GroupGrown,
    inner: &'t [Branch],
    above: &'t [Levels],
    rest: &[Step],
) -> Triplets<'t>
    requires seen { (group.now).seen ≤ length above.now }
    requires ended { 1 ≤ length (group.now).levels.items → (group.now).seen ≡ length above.now }
    requires lends { (f : LeafForm) × Lends (map step_view rest.now) f (grown (group.now).seen (nulls
        (group.now).levels.items) (nulls above.now)) (shapes_view inner.now) (twigs_view inner.now) }
    ensures triplets { triplets_view result ≡ column_in (map step_view rest.now) (grown (group.now).seen (nulls
        (group.now).levels.items) (nulls above.now)) (twigs_view inner.now) }
    ensures form { (f : LeafForm) → LeadsTo (map step_view rest.now) f (shapes_view inner.now)
        → triplets_form result ≡ f }
{
    if group.levels.len() == 0 {
        lend_path(inner, behind(above, group.seen), rest)
    } else {
        lend_path(inner, &group.levels, rest)
    }
}

/// The column of a leaf.
pub(crate) fn lend_field<'t>(
    branches: &'t [Branch],
    above: &'t [Levels],
    field: &Path,
) -> Triplets<'t>
    requires lends { Lends (path_view field.now).path (leaf_form (path_view field.now)) (nulls above.now)
        (shapes_view branches.now) (twigs_view branches.now) }
    ensures triplets { triplets_view result ≡ column_in (path_view field.now).path (nulls above.now)
        (twigs_view branches.now) }
    ensures form { triplets_form result ≡ leaf_form (path_view field.now) }
{
    lend_path(branches, above, &field.steps)
}
