//! Making a tree.

ghost use Rattle.std.specs.Prelude.{◌≡◌, ◌<◌, ◌≤◌, [], map, drop, length, replicate, OnOk, IfOk};
ghost use Rattle.dr_nested.specs.Views.{rep_view, kind_view};
ghost use Rattle.dr_nested.specs.PathView.{step_view, path_view, paths_view};
ghost use Rattle.dr_levels.specs.Views.{form};
ghost use Rattle.dr_striper.specs.Shapes.{Shape, nothing};
ghost use Rattle.dr_striper.specs.Striping.{leaf_form, leaves_of};
ghost use Rattle.dr_striper.specs.Records.{columns_in, Grows};
ghost use Rattle.dr_striper.specs.Made.{IsFresh, AreFresh, change_at, put_one, put, OfOneTree};
ghost use Rattle.dr_striper.specs.Views.{shape_view, shapes_view, twigs_view};

use crate::branch::{Branch, GroupGrown, LeafGrown};
use dr_levels::{Column, max_d};
use dr_nested::{Kind, NoMemory, Path, Rep, Step};
use std::alloc::Global;

/// Branches up to a place; those that weren't there are nothing.
fn make_room(branches: &mut Vec<Branch>, place: usize) -> Result<(), NoMemory>
    requires { AreFresh branches.old.items }
    ensures room { OnOk result (place < length branches.new.items) }
    ensures shapes { OnOk result ((F : Shape → Shape) → change_at place F (shapes_view branches.new.items)
        ≡ change_at place F (shapes_view branches.old.items)) }
    ensures fresh { OnOk result (AreFresh branches.new.items) }
{
    'room: while branches.len() <= place {
        branches.push(Branch::Nothing)?;
    }
    Ok(())
}

/// The steps behind the first one.
pub(crate) fn behind_first(steps: &[Step]) -> &[Step]
    requires { 1 ≤ length steps.now }
    ensures rest { result.now ≡ drop 1 steps.now }
    ensures shorter { length result.now < length steps.now }
{
    &steps[1..]
}

/// Puts a path into a tree without records.
#[cycle(planting)]
pub(crate) fn put_path(
    alloc: Global,
    branches: &mut Vec<Branch>,
    steps: &[Step],
    kind: Kind,
    greatest: u8,
) -> Result<(), NoMemory>
    requires { AreFresh branches.old.items }
    ensures shapes { OnOk result (shapes_view branches.new.items
        ≡ put (map step_view steps.now) (form (kind_view kind) greatest) (shapes_view branches.old.items)) }
    ensures fresh { OnOk result (AreFresh branches.new.items) }
{
    if steps.len() > 0 {
        let place = steps[0].place;
        let rep = steps[0].rep;
        make_room(branches, place)?;
        put_one(
            alloc,
            &mut branches[place],
            rep,
            behind_first(steps),
            kind,
            greatest,
        )?;
    }
    Ok(())
}

#[cycle(planting)]
fn put_one(
    alloc: Global,
    branch: &mut Branch,
    rep: Rep,
    rest: &[Step],
    kind: Kind,
    greatest: u8,
) -> Result<(), NoMemory>
    requires { IsFresh branch.old }
    ensures shape { OnOk result (shape_view branch.new ≡ put_one (rep_view rep) (map step_view rest.now) (form
        (kind_view kind) greatest)
        (put (map step_view rest.now) (form (kind_view kind) greatest)) (shape_view branch.old)) }
    ensures fresh { OnOk result (IsFresh branch.new) }
{
    match branch {
        Branch::Nothing => {
            *branch = fresh_branch(alloc, rep, rest, kind, greatest)?;
            Ok(())
        }
        Branch::Leaf(_, _) => Ok(()),
        Branch::Group(_, _, inner) => {
            if rest.len() > 0 {
                put_path(alloc, inner, rest, kind, greatest)?;
            }
            Ok(())
        }
    }
}

#[cycle(planting)]
fn fresh_branch(
    alloc: Global,
    rep: Rep,
    rest: &[Step],
    kind: Kind,
    greatest: u8,
) -> Result<Branch, NoMemory>
    ensures shape { IfOk result (λ b. shape_view b ≡ put_one (rep_view rep) (map step_view rest.now) (form
        (kind_view kind) greatest)
        (put (map step_view rest.now) (form (kind_view kind) greatest)) nothing) }
    ensures fresh { IfOk result IsFresh }
{
    if rest.len() > 0 {
        let mut inner = Vec::new(alloc);
        put_path(alloc, &mut inner, rest, kind, greatest)?;
        Ok(Branch::Group(
            rep,
            GroupGrown {
                seen: 0,
                levels: Vec::new(alloc),
                was_seen: 0,
                was_long: 0,
            },
            inner,
        ))
    } else {
        Ok(Branch::Leaf(
            rep,
            LeafGrown {
                seen: 0,
                column: Column::new(alloc, kind, greatest),
                was_seen: 0,
                was_long: 0,
            },
        ))
    }
}

/// Puts a leaf into a tree without records.
fn put_leaf(alloc: Global, branches: &mut Vec<Branch>, field: &Path) -> Result<(), NoMemory>
    requires { AreFresh branches.old.items }
    ensures shapes { OnOk result (shapes_view branches.new.items
        ≡ put (path_view field.now).path (leaf_form (path_view field.now)) (shapes_view branches.old.items)) }
    ensures fresh { OnOk result (AreFresh branches.new.items) }
{
    put_path(
        alloc,
        branches,
        &field.steps,
        field.kind,
        max_d(field) as u8,
    )
}

/// A tree of some leaves, without records.
pub(crate) fn new_branches(alloc: Global, fields: &[Path]) -> Result<Vec<Branch>, NoMemory>
    requires { OfOneTree (leaves_of fields.now) }
    ensures grows { IfOk result (λ v. Grows (leaves_of fields.now) [] (shapes_view v.items) (twigs_view v.items)) }
    ensures columns { IfOk result (λ v. columns_in (paths_view fields.now) [] (twigs_view v.items)
        ≡ replicate (length fields.now) []) }
{
    let mut branches = Vec::new(alloc);
    'fields: for number in 0..fields.len() {
        put_leaf(alloc, &mut branches, &fields[number])?;
    }
    Ok(branches)
}
