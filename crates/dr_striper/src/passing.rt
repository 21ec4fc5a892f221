//! What a record that is held gives to the tree of leaves.

ghost use Rattle.std.specs.Prelude.{◌≡◌, ◌≤◌, ◌<◌, ◌+◌, ◌∷◌, [], length, OnOk};
ghost use Rattle.dr_meaning.specs.Record as record_tree;
ghost use Rattle.dr_meaning.specs.Schema.{repetition_count, definition_count};
ghost use Rattle.dr_nested.specs.Views.{rep_view};
ghost use Rattle.dr_levels.specs.Views.{column_view, column_form};
ghost use Rattle.dr_striper.specs.Added as added;
ghost use Rattle.dr_striper.specs.Shapes as shapes;
ghost use Rattle.dr_striper.specs.Shapes.{Ready, FieldReady};
ghost use Rattle.dr_striper.specs.Back.{leaf_back, group_back, back_view, backs};
ghost use Rattle.dr_striper.specs.Views.{nulls, before, twig_view, twigs_view, shape_view, shapes_view};

use crate::branch::{Branch, GroupGrown, LeafGrown};
use crate::held::Held;
use dr_levels::Levels;
use dr_nested::{NoMemory, Rep};

/// The repetition level of later instances of a field.
#[inline(always)]
fn level_below(level: u8, rep: Rep) -> u8
    requires { level + repetition_count (rep_view rep) ≤ 255 }
    ensures { result ≡ level + repetition_count (rep_view rep) }
{
    match rep {
        Rep::Repeated => level + 1,
        Rep::Required | Rep::Optional => level,
    }
}

/// The definition level of a field that is there.
#[inline(always)]
fn definition_below(definition: u8, rep: Rep) -> u8
    requires { definition + definition_count (rep_view rep) ≤ 255 }
    ensures { result ≡ definition + definition_count (rep_view rep) }
{
    match rep {
        Rep::Required => definition,
        Rep::Optional | Rep::Repeated => definition + 1,
    }
}

/// What the instances of a leaf that has some give it.
#[inline(always)]
fn stripe_leaf<H: Held>(
    rep: Rep,
    leaf: &mut LeafGrown,
    kept: usize,
    above: &[Levels],
    first: H,
    later: H::List,
    repetition: u8,
    level: u8,
    definition: u8,
) -> Result<(), NoMemory>
    requires some { 1 ≤ length above.now }
    requires begun { kept < length above.now }
    requires ready { FieldReady level definition repetition (before above.now) (record_tree.instance (H.shows first)
        (H.lists later))
        (shapes.leaf (rep_view rep) (column_form (leaf.old).column)) (added.leaf (rep_view rep) (leaf.old).seen
        (column_view (leaf.old).column)) }
    ensures added { OnOk result (added.leaf (rep_view rep) (leaf.new).seen (column_view (leaf.new).column)
        ≡ added.field_added (record_tree.instance (H.shows first) (H.lists later)) level definition repetition
        (before above.now)
        (added.leaf (rep_view rep) (leaf.old).seen (column_view (leaf.old).column))) }
    ensures kept { leaf_back (rep_view rep) kept leaf.new ≡ leaf_back (rep_view rep) kept leaf.old }
    ensures form { column_form (leaf.new).column ≡ column_form (leaf.old).column }
{
    let below = level_below(level, rep);
    let reached = definition_below(definition, rep);
    leaf.push_first(kept, above, repetition, reached, first.value())?;
    let mut rest = later;
    'values: while let Some((instance, behind)) = H::cut_first(rest) {
        leaf.push_later(kept, below, reached, instance.value())?;
        rest = behind;
    }
    Ok(())
}

/// What the instances of a group that has some give its branches.
#[cycle(passing)]
#[inline(always)]
fn stripe_inner<H: Held>(
    rep: Rep,
    group: &mut GroupGrown,
    inner: &mut [Branch],
    kept: usize,
    above: &[Levels],
    first: H,
    later: H::List,
    repetition: u8,
    level: u8,
    definition: u8,
) -> Result<(), NoMemory>
    requires some { 1 ≤ length above.now }
    requires begun { kept < length above.now }
    requires ready { FieldReady level definition repetition (before above.now) (record_tree.instance (H.shows first)
        (H.lists later))
        (shapes.group (rep_view rep) (shapes_view inner.old))
        (added.group (rep_view rep) (group.old).seen (nulls (group.old).levels.items) (twigs_view inner.old)) }
    ensures added { OnOk result (added.group (rep_view rep) (group.new).seen (nulls (group.new).levels.items)
        (twigs_view inner.new)
        ≡ added.field_added (record_tree.instance (H.shows first) (H.lists later)) level definition repetition
        (before above.now)
        (added.group (rep_view rep) (group.old).seen (nulls (group.old).levels.items) (twigs_view inner.old))) }
    ensures kept { group_back (rep_view rep) kept group.new inner.new
        ≡ group_back (rep_view rep) kept group.old inner.old }
    ensures shapes { shapes_view inner.new ≡ shapes_view inner.old }
{
    let below = level_below(level, rep);
    let reached = definition_below(definition, rep);
    group.begin_first(kept, above, repetition, reached)?;
    stripe_group::<H>(
        inner,
        group.was_long,
        &group.levels,
        first,
        repetition,
        below,
        reached,
    )?;
    let mut rest = later;
    'instances: while let Some((instance, behind)) = H::cut_first(rest) {
        group.begin_later(kept, below, reached)?;
        stripe_group::<H>(
            inner,
            group.was_long,
            &group.levels,
            instance,
            below,
            below,
            reached,
        )?;
        rest = behind;
    }
    Ok(())
}

/// What the instances of a field give its branch.
#[cycle(passing)]
#[inline(always)]
fn stripe_field<H: Held>(
    branch: &mut Branch,
    kept: usize,
    above: &[Levels],
    instances: H::List,
    repetition: u8,
    level: u8,
    definition: u8,
) -> Result<(), NoMemory>
    requires some { 1 ≤ length above.now }
    requires begun { kept < length above.now }
    requires ready { FieldReady level definition repetition (before above.now) (H.lists instances)
        (shape_view branch.old) (twig_view branch.old) }
    ensures added { OnOk result (twig_view branch.new
        ≡ added.field_added (H.lists instances) level definition repetition (before above.now) (twig_view branch.old)) }
    ensures kept { back_view branch.new kept ≡ back_view branch.old kept }
    ensures shape { shape_view branch.new ≡ shape_view branch.old }
{
    match H::cut_first(instances) {
        None => Ok(()),
        Some((first, later)) => match branch {
            Branch::Nothing => Ok(()),
            Branch::Leaf(rep, leaf) => {
                stripe_leaf::<H>(
                    *rep, leaf, kept, above, first, later, repetition, level, definition,
                )
            }
            Branch::Group(rep, group, inner) => {
                stripe_inner::<H>(
                    *rep, group, inner, kept, above, first, later, repetition, level, definition,
                )
            }
        },
    }
}

/// What an instance of a group, which has begun, gives the group's branches.
#[cycle(passing)]
pub(crate) fn stripe_group<H: Held>(
    branches: &mut [Branch],
    kept: usize,
    above: &[Levels],
    held: H,
    repetition: u8,
    level: u8,
    definition: u8,
) -> Result<(), NoMemory>
    requires some { 1 ≤ length above.now }
    requires begun { kept < length above.now }
    requires ready { Ready level definition repetition (before above.now) (H.shows held) (shapes_view branches.old)
        (twigs_view branches.old) }
    ensures added { OnOk result (twigs_view branches.new
        ≡ added.inside_added (H.shows held) level definition repetition (before above.now) (twigs_view branches.old)) }
    ensures kept { backs kept branches.new ≡ backs kept branches.old }
    ensures shapes { shapes_view branches.new ≡ shapes_view branches.old }
{
    'branches: for number in 0..branches.len() {
        stripe_field::<H>(
            &mut branches[number],
            kept,
            above,
            held.instances_in(number),
            repetition,
            level,
            definition,
        )?;
    }
    Ok(())
}
