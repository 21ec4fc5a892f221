//! Lines that wait until those of all tablets to their left are there.

ghost use Rattle.std.specs.Prelude.{◌≡◌, ◌<◌, ◌++◌, IfOk, IfSome, OnOk, length};
ghost use Rattle.std.specs.List.{fold};
ghost use Rattle.dr_cells.specs.Rows.{rows_shape};
ghost use Rattle.dr_partials.specs.Partials as meant;
ghost use Rattle.dr_partials.specs.Trees.{tablets_of};
ghost use Rattle.dr_tree.specs.Appending.{HaveMoved, filled_at, with_lines};
ghost use Rattle.dr_tree.specs.Places.{added, fill, is_free_for};
ghost use Rattle.dr_tree.specs.Places as places;
ghost use Rattle.dr_tree.specs.Views.{tree_view};
ghost use Rattle.dr_tree.specs.Waiting.{AreShaped, lines_of, place_of, places_of};

use crate::tree::{Tree, push_tablets};
use dr_cells::RowsOut;
use dr_memory::NoMemory;
use std::alloc::Global;
use std::collections::VecDeque;

/// A leaf server whose lines aren't appended: its tablet, and its lines where they came.
#[derive(Drop)]
pub(crate) struct Waiting {
    pub(crate) tablet: u32,
    pub(crate) lines: Option<RowsOut>,
}

/// The leaf servers of a tree, in order, without lines.
///
/// Errors: want of memory alone.
pub(crate) fn free_places(alloc: Global, tree: &Tree) -> Result<VecDeque<Waiting>, NoMemory>
    ensures { IfOk result (λ v. places_of v.items ≡ places.free_places (tablets_of (tree_view tree.now))) }
{
    let mut tablets = Vec::new(alloc);
    push_tablets(tree, &mut tablets)?;
    let mut waiting = VecDeque::new(alloc);
    'tablets: for tablet in &tablets {
        waiting.push_back(Waiting {
            tablet: *tablet,
            lines: None,
        })?;
    }
    Ok(waiting)
}

/// Whether it is the tablet's, and has no lines.
fn is_free(place: &Waiting, tablet: u32) -> bool
    ensures { result ≡ is_free_for tablet (place_of place.now) }
{
    match place.lines {
        Some(_) => false,
        None => place.tablet == tablet,
    }
}

/// The number of the first place of a tablet that has no lines.
fn free_place(waiting: &VecDeque<Waiting>, tablet: u32) -> Option<usize>
    ensures within { IfSome result (λ i. i < length (waiting.now).items) }
    ensures first { (r : meant.Partial) → fill tablet r (places_of (waiting.now).items)
        ≡ filled_at result tablet r (places_of (waiting.now).items) }
{
    'places: for at in 0..waiting.len() {
        if is_free(&waiting[at], tablet) {
            return Some(at);
        }
    }
    None
}

/// Keeps lines at their tablet's first place without lines.
pub(crate) fn keep(waiting: &mut VecDeque<Waiting>, tablet: u32, lines: RowsOut)
    ensures places { places_of (waiting.new).items ≡ fill tablet (lines_of lines) (places_of (waiting.old).items) }
    ensures shaped { AreShaped (rows_shape lines) (waiting.old).items
        → AreShaped (rows_shape lines) (waiting.new).items }
{
    if let Some(at) = free_place(waiting, tablet) {
        waiting[at] = Waiting {
            tablet,
            lines: Some(lines),
        };
    }
}

/// Appends the lines of the first place, unless it has none, or there is no memory for it; it is taken out then.
fn append_first(rows: &mut RowsOut, waiting: &mut VecDeque<Waiting>) -> bool
    requires { AreShaped (rows_shape rows.old) (waiting.old).items }
    ensures { HaveMoved rows.old (waiting.old).items rows.new (waiting.new).items }
{
    let Some(first) = waiting.front() else {
        return false;
    };
    let Some(lines) = &first.lines else {
        return false;
    };
    let Ok(()) = rows.append(lines) else {
        return false;
    };
    let _ = waiting.pop_front();
    true
}

/// Appends the lines of the first places that have theirs, as far as there is memory.
pub(crate) fn append_ready(rows: &mut RowsOut, waiting: &mut VecDeque<Waiting>)
    requires { AreShaped (rows_shape rows.old) (waiting.old).items }
    ensures { HaveMoved rows.old (waiting.old).items rows.new (waiting.new).items }
{
    'firsts: for _ in 0..waiting.len() {
        if !append_first(rows, waiting) {
            return;
        }
    }
}

/// Appends all lines that wait.
pub(crate) fn append_all(rows: RowsOut, waiting: VecDeque<Waiting>) -> Result<RowsOut, NoMemory>
    requires { AreShaped (rows_shape rows) waiting.items }
    ensures lines { IfOk result (λ r. lines_of r
        ≡ fold meant.merge (lines_of rows) (added (places_of waiting.items))) }
    ensures shape { IfOk result (λ r. rows_shape r ≡ rows_shape rows) }
{
    let mut rows = rows;
    let mut waiting = waiting;
    'waiting: while let Some(place) = waiting.pop_front() {
        append_lines(&mut rows, place.lines)?;
    }
    Ok(rows)
}

/// Appends the lines of a place, where it has some.
fn append_lines(rows: &mut RowsOut, lines: Option<RowsOut>) -> Result<(), NoMemory>
    requires { IfSome lines (λ r. rows_shape r ≡ rows_shape rows.old) }
    ensures lines { OnOk result (lines_of rows.new ≡ with_lines (lines_of rows.old) lines) }
    ensures shape { rows_shape rows.new ≡ rows_shape rows.old }
{
    match lines {
        Some(lines) => rows.append(&lines),
        None => Ok(()),
    }
}
