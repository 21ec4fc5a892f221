//! The table of all transitions: a row for each leaf, with a state for each level.

ghost use Rattle.std.specs.Prelude.{◌≡◌, ◌++◌, ◌+◌, ◌-◌, ◌<◌, ◌^◌, ℕ, replicate, length, map, All, IfOk, OnOk};
ghost use Rattle.dr_meaning.specs.Automaton as meant;
ghost use Rattle.dr_nested.specs.PathView.{path_view};
ghost use Rattle.dr_fsm.specs.Tables.{lent_leaf, paths_at, state_view, table_at, Answers};

use crate::state::State;
use dr_levels::common;
use dr_nested::Path;
use std::alloc::{AllocError, Global};

/// Fills a row up to a level.
fn fill(row: &mut Vec<State>, level: u32, state: State) -> Result<(), AllocError>
    ensures { OnOk result ((row.new).items ≡ (row.old).items ++ replicate (level + 1 - length (row.old).items) state) }
{
    'levels: while row.len() <= level as usize {
        row.push(state)?;
    }
    Ok(())
}

/// The states of a leaf up to the common level with the next leaf, or the end at level 0.
fn front_of(alloc: Global, leaves: &[&Path], place: usize) -> Result<Vec<State>, AllocError>
    requires place { place < length leaves.now }
    requires few { length leaves.now < 2 ^ 32 }
    ensures { IfOk result (λ v. Answers (map lent_leaf leaves.now) place v.items 0) }
{
    let mut row = Vec::new(alloc);
    if place + 1 < leaves.len() {
        fill(
            &mut row,
            common(leaves[place], leaves[place + 1]),
            State::Leaf((place + 1) as u32),
        )?;
    } else {
        fill(&mut row, 0, State::End)?;
    }
    Ok(row)
}

/// The states of a leaf, by level: a greater level than the front's goes to the first leaf of that common level.
fn row_of(alloc: Global, leaves: &[&Path], place: usize) -> Result<Vec<State>, AllocError>
    requires place { place < length leaves.now }
    requires few { length leaves.now < 2 ^ 32 }
    ensures { IfOk result (λ v. Answers (map lent_leaf leaves.now) place v.items (length leaves.now)) }
{
    let mut row = front_of(alloc, leaves, place)?;
    'leaves: for target in 0..leaves.len() {
        fill(
            &mut row,
            common(leaves[place], leaves[target]),
            State::Leaf(target as u32),
        )?;
    }
    Ok(row)
}

fn rows_of(alloc: Global, leaves: &[&Path]) -> Result<Vec<Vec<State>>, AllocError>
    requires few { length leaves.now < 2 ^ 32 }
    ensures { IfOk result (λ v. (i l : ℕ) → table_at v.items i l ≡ meant.transition (map lent_leaf leaves.now) i l) }
{
    let mut rows = Vec::with_capacity(alloc, leaves.len())?;
    'rows: for place in 0..leaves.len() {
        rows.push(row_of(alloc, leaves, place)?)?;
    }
    Ok(rows)
}

fn leaves_at<'a>(
    alloc: Global,
    fields: &'a [Path],
    order: &[usize],
) -> Result<Vec<&'a Path>, AllocError>
    requires within { All (λ i. i < length fields.now) order.now }
    ensures { IfOk result (λ v. map lent_leaf v.items
        ≡ paths_at (map (λ (p : Path). (path_view p).path) fields.now) order.now) }
{
    let mut leaves = Vec::with_capacity(alloc, order.len())?;
    'order: for index in order {
        leaves.push(&fields[*index])?;
    }
    Ok(leaves)
}

/// The transitions of the automaton of the leaves at these places of a selection.
pub fn table_of(
    alloc: Global,
    fields: &[Path],
    order: &[usize],
) -> Result<Vec<Vec<State>>, AllocError>
    requires within { All (λ i. i < length fields.now) order.now }
    requires few { length order.now < 2 ^ 32 }
    ensures { IfOk result (λ v. (i l : ℕ) → table_at v.items i l
        ≡ meant.transition (paths_at (map (λ (p : Path). (path_view p).path) fields.now) order.now) i l) }
{
    let leaves = leaves_at(alloc, fields, order)?;
    rows_of(alloc, &leaves)
}

/// Where a table leads from a leaf at a level: to the end where it has no state for them.
pub fn look_up(rows: &[Vec<State>], leaf: usize, level: usize) -> State
    ensures { state_view result ≡ table_at rows.now leaf level }
{
    match rows.get(leaf) {
        Some(row) => match row.get(level) {
            Some(state) => *state,
            None => State::End,
        },
        None => State::End,
    }
}
