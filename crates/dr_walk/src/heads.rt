//! The levels that come next of each leaf.

ghost use Rattle.std.specs.Prelude.{◌≡◌, ◌++◌, ◌∷◌, [], map, List, Option, Some, None, length, option_map, get_or, OnOk, true, false, ℕ};
ghost use Rattle.dr_walk.specs.Views.{gates_view, groups_view};
ghost use Rattle.dr_walk.specs.Seen.{levels_at, next_definitions, level_definition, level_repetition, first_shut as meant_shut, due_levels, TakesSeen};

use crate::items::Gate;
use dr_levels::Levels;
use dr_nested::NoMemory;

/// The next levels of a leaf, none where there is none.
#[inline(always)]
pub fn head(heads: &[Option<Levels>], leaf: u32) -> Option<Levels>
    ensures { result ≡ get_or heads.now leaf None }
{
    match heads.get(leaf as usize) {
        Some(levels) => *levels,
        None => None,
    }
}

/// The next definition level of a leaf, 0 where there is none.
#[inline(always)]
pub fn definition(heads: &[Option<Levels>], leaf: u32) -> u8
    ensures { result ≡ next_definitions heads.now leaf }
{
    match head(heads, leaf) {
        Some(levels) => levels.definition,
        None => 0,
    }
}

/// The next repetition level of a leaf, 0 where there is none.
#[inline(always)]
pub fn repetition(heads: &[Option<Levels>], leaf: u32) -> u8
    ensures { result ≡ level_repetition (levels_at heads.now leaf) }
{
    match head(heads, leaf) {
        Some(levels) => levels.repetition,
        None => 0,
    }
}

/// The definition level of the first gate that is shut.
#[inline(always)]
pub fn first_shut(heads: &[Option<Levels>], gates: &[Gate]) -> Option<u8>
    ensures { result ≡ meant_shut (next_definitions heads.now) (gates_view gates.now) }
{
    'gates: for gate in gates {
        if definition(heads, gate.leaf) <= gate.definition {
            return Some(gate.definition);
        }
    }
    None
}

/// Looks at the gates of items, and keeps what is seen behind what was.
#[inline]
pub fn look(
    heads: &[Option<Levels>],
    groups: &[Vec<Gate>],
    shut: &mut Vec<Option<u8>>,
) -> Result<(), NoMemory>
    ensures { OnOk result ((shut.new).items ≡ (shut.old).items
        ++ map (meant_shut (next_definitions heads.now)) (groups_view groups.now)) }
{
    'groups: for gates in groups {
        shut.push(first_shut(heads, gates))?;
    }
    Ok(())
}

/// Takes what was seen last, where an item stands behind gates.
#[inline(always)]
pub fn take_seen(shut: &mut Vec<Option<u8>>, gated: bool) -> Option<u8>
    ensures { TakesSeen gated (shut.old).items (shut.new).items result }
{
    if gated {
        match shut.pop() {
            Some(seen) => seen,
            None => None,
        }
    } else {
        None
    }
}
