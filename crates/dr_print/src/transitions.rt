//! The text of an automaton: one transition to a line.

ghost use Rattle.std.specs.Prelude.{◌≡◌, ◌++◌, ◌<◌, ◌^◌, length, map, All, IfOk, OnOk, string_bytes};
ghost use Rattle.dr_meaning.specs.Automaton as meant;
ghost use Rattle.dr_meaning.specs.Fsm as fsm;
ghost use Rattle.dr_nested.specs.PathView.{path_view};
ghost use Rattle.dr_fsm.specs.Tables.{paths_at, state_view};
ghost use Rattle.dr_fsm.specs.Automata.{leaves_of, IsAutomatonOf};
ghost use Rattle.dr_print.specs.Transitions.{lent_leaves, dotted, line_to};
ghost use Rattle.dr_meaning.specs.Path.{paths_of_leaves};

use crate::triplet_lines::push_level;
use dr_fsm::{Automaton, State};
use dr_levels::max_r;
use dr_nested::{NoMemory, Path};
use std::alloc::{AllocError, Global};

/// Appends names, with a dot before each.
fn push_dotted(text: &mut String, names: &[String]) -> Result<(), AllocError>
    ensures { OnOk result (string_bytes text.new ≡ string_bytes text.old ++ dotted (map string_bytes names.now)) }
{
    'names: for name in names {
        text.push_str(".")?;
        text.push_str(name.as_str())?;
    }
    Ok(())
}

/// Appends a leaf's names, joined by dots.
fn push_leaf_name(text: &mut String, leaf: &Path) -> Result<(), AllocError>
    ensures { OnOk result (string_bytes text.new ≡ string_bytes text.old ++ meant.leaf_name (path_view leaf.now)) }
{
    match leaf.names.as_slice() {
        [] => Ok(()),
        [first, rest @ ..] => {
            text.push_str(first.as_str())?;
            push_dotted(text, rest)
        }
    }
}

/// Appends the name of the leaf that a state is, or `end`.
fn push_target(text: &mut String, leaves: &[&Path], state: State) -> Result<(), AllocError>
    ensures { OnOk result (string_bytes text.new
        ≡ string_bytes text.old ++ meant.target_name (lent_leaves leaves.now) (state_view state)) }
{
    match state {
        State::End => text.push_str("end"),
        State::Leaf(place) => match leaves.get(place as usize) {
            Some(leaf) => push_leaf_name(text, *leaf),
            None => Ok(()),
        },
    }
}

/// Appends the line of a leaf's level that leads to a state.
fn push_transition(
    text: &mut String,
    leaves: &[&Path],
    leaf: &Path,
    level: u32,
    state: State,
) -> Result<(), AllocError>
    ensures { OnOk result (string_bytes text.new
        ≡ string_bytes text.old ++ line_to (lent_leaves leaves.now) (path_view leaf.now) level (state_view state)) }
{
    push_leaf_name(text, leaf)?;
    text.push_str(" ")?;
    push_level(text, level)?;
    text.push_str(" ")?;
    push_target(text, leaves, state)?;
    text.push_str("\n")
}

/// Appends the lines of a leaf of the automaton, one for each of its levels.
fn push_leaf(
    text: &mut String,
    leaves: &[&Path],
    automaton: &Automaton,
    leaf: &Path,
    place: u32,
) -> Result<(), AllocError>
    requires next { IsAutomatonOf automaton.now (paths_of_leaves (lent_leaves leaves.now)) }
    ensures { OnOk result (string_bytes text.new
        ≡ string_bytes text.old ++ meant.leaf_lines (lent_leaves leaves.now) (path_view leaf.now) place) }
{
    'levels: for level in 0..=max_r(leaf) {
        push_transition(text, leaves, leaf, level, automaton.next(place, level))?;
    }
    Ok(())
}

/// Appends the lines of all the automaton's leaves.
fn push_leaves(text: &mut String, leaves: &[&Path], automaton: &Automaton) -> Result<(), AllocError>
    requires next { IsAutomatonOf automaton.now (paths_of_leaves (lent_leaves leaves.now)) }
    requires few { length leaves.now < 2 ^ 32 }
    ensures { OnOk result (string_bytes text.new
        ≡ string_bytes text.old ++ meant.automaton_text (lent_leaves leaves.now)) }
{
    'leaves: for place in 0..leaves.len() {
        push_leaf(text, leaves, automaton, leaves[place], place as u32)?;
    }
    Ok(())
}

/// The leaves at these places of a selection.
fn leaves_at<'a>(
    alloc: Global,
    fields: &'a [Path],
    places: &[usize],
) -> Result<Vec<&'a Path>, AllocError>
    requires within { All (λ i. i < length fields.now) places.now }
    ensures { IfOk result (λ v. lent_leaves v.items ≡ fsm.leaves_at (map path_view fields.now) places.now) }
{
    let mut leaves = Vec::with_capacity(alloc, places.len())?;
    'places: for place in places {
        leaves.push(&fields[*place])?;
    }
    Ok(leaves)
}

/// An automaton as text: a line `LEAF LEVEL NEXT` or `LEAF LEVEL end` for each leaf in the automaton's order and each
/// of its levels, which ascend. A leaf is written as its names, joined by dots. The selection is that of which the
/// automaton was built.
///
/// Errors: want of memory, also where there are more than 4,294,967,295 leaves, as no schema has.
pub fn automaton_text(
    alloc: Global,
    fields: &[Path],
    automaton: &Automaton,
) -> Result<String, NoMemory>
    requires next { IsAutomatonOf automaton.now
        (paths_at (map (λ (p : Path). (path_view p).path) fields.now) (leaves_of automaton.now)) }
    requires within { All (λ i. i < length fields.now) (leaves_of automaton.now) }
    ensures { IfOk result (λ s. string_bytes s
        ≡ meant.automaton_text (fsm.leaves_at (map path_view fields.now) (leaves_of automaton.now))) }
{
    let places = automaton.leaves();
    if places.len() > u32::MAX as usize {
        return Err(NoMemory);
    }
    let leaves = leaves_at(alloc, fields, places)?;
    lines_of(alloc, &leaves, automaton)
}

/// The lines of all the automaton's leaves.
fn lines_of(alloc: Global, leaves: &[&Path], automaton: &Automaton) -> Result<String, NoMemory>
    requires next { IsAutomatonOf automaton.now (paths_of_leaves (lent_leaves leaves.now)) }
    requires few { length leaves.now < 2 ^ 32 }
    ensures { IfOk result (λ s. string_bytes s ≡ meant.automaton_text (lent_leaves leaves.now)) }
{
    let mut text = String::new(alloc);
    push_leaves(&mut text, leaves, automaton)?;
    Ok(text)
}
