//! The selected leaves behind the fields of a group.

ghost use Rattle.std.specs.Prelude.{◌≡◌, ◌<◌, ◌^◌, map, length, IfOk};
ghost use Rattle.dr_meaning.specs.Automaton as automaton;
ghost use Rattle.dr_nested.specs.PathView.{lent_path};
ghost use Rattle.dr_levels.specs.Orders.{picks_at};
ghost use Rattle.dr_walk.specs.Views.{pick_view, picks_view};
ghost use Rattle.dr_moves.specs.Course.{first_index as meant_first};

use dr_nested::{NoMemory, Step};
use std::alloc::Global;

/// The rest of a selected leaf's path, and the leaf's place in the selection.
#[derive(Clone, Copy)]
pub struct Pick<'a> {
    pub rest: &'a [Step],
    pub leaf: u32,
}

/// The selected leaves, each with its whole path.
///
/// Errors: want of memory alone.
pub fn picks_of<'a>(alloc: Global, fields: &[&'a [Step]]) -> Result<Vec<Pick<'a>>, NoMemory>
    requires { length fields.now < 2 ^ 32 }
    ensures { IfOk result (λ v. picks_view v.items ≡ automaton.picks (map lent_path fields.now)) }
{
    let mut picks = Vec::with_capacity(alloc, fields.len())?;
    'fields: for (place, field) in fields.iter().enumerate() {
        picks.push(Pick {
            rest: *field,
            leaf: place as u32,
        })?;
    }
    Ok(picks)
}

/// Those that go through the field at a place of a group, behind it.
///
/// Errors: want of memory alone.
pub fn picks_behind<'a>(
    alloc: Global,
    picks: &[Pick<'a>],
    place: usize,
) -> Result<Vec<Pick<'a>>, NoMemory>
    ensures { IfOk result (λ v. picks_view v.items ≡ picks_at place (picks_view picks.now)) }
{
    let mut behind = Vec::new(alloc);
    'picks: for pick in picks {
        if let [first, rest @ ..] = pick.rest
            && first.place == place
        {
            behind.push(Pick {
                rest,
                leaf: pick.leaf,
            })?;
        }
    }
    Ok(behind)
}

/// The first of them, 0 where there is none.
pub fn first_leaf(picks: &[Pick]) -> u32
    ensures { result ≡ meant_first (picks_view picks.now) }
{
    match picks {
        [] => 0,
        [first, ..] => first.leaf,
    }
}
