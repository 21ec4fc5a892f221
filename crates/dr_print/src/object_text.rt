//! The text of an object, read from cells; its names are in quotes already.

ghost use Rattle.std.specs.Prelude.{◌≡◌, ◌++◌, drop, map, string_bytes, IfOk, OnOk, false, ◌||◌, nat_lt};
ghost use Rattle.dr_meaning.specs.Query.{objects_of};
ghost use Rattle.dr_cells.specs.Results.{read_object};
ghost use Rattle.dr_cells.specs.Views.{cells_view};
ghost use Rattle.dr_print.specs.Parts.{value_members};
ghost use Rattle.dr_print.specs.Quoted.{quoted_view, text_as_named, texts_as_named, entries_as_named, lists_at, objects_at};
ghost use Rattle.dr_meaning.specs.Lists.{separated};

use crate::cell_text::{count_at, push_value};
use crate::parts::push_comma;
use crate::quoted_shape::{QuotedList, QuotedShape};
use crate::skipping::skip;
use dr_cells::Cells;
use std::alloc::{AllocError, Global};

/// Appends the values of these names, which are in quotes, from a place on.
#[inline]
fn push_values(
    alloc: Global,
    text: &mut String,
    names: &[String],
    cells: &Cells,
    at: usize,
) -> Result<(), AllocError>
    ensures { OnOk result (string_bytes text.new
        ≡ string_bytes text.old ++ separated false
        (value_members (map string_bytes names.now) (drop at (cells_view cells.now)))) }
{
    'names: for (number, name) in names.iter().enumerate() {
        push_comma(text, number > 0)?;
        text.push_str(name.as_str())?;
        push_value(alloc, text, cells, skip(cells, at, number))?;
    }
    Ok(())
}

/// Whether something stands before the list of this number.
#[inline(always)]
fn stands_before(behind: bool, number: usize) -> bool
    ensures { result ≡ (behind || nat_lt 0 number) }
{
    behind || number > 0
}

/// Appends the object that begins at a place, and tells the place behind it.
#[cycle(objects)]
pub fn push_object(
    shape: &QuotedShape,
    alloc: Global,
    text: &mut String,
    cells: &Cells,
    at: usize,
) -> Result<usize, AllocError>
    ensures text { OnOk result (string_bytes text.new
        ≡ string_bytes text.old ++ text_as_named
        (read_object (quoted_view shape.now) (drop at (cells_view cells.now))).object) }
    ensures place { IfOk result (λ end. drop end (cells_view cells.now)
        ≡ (read_object (quoted_view shape.now) (drop at (cells_view cells.now))).rest) }
{
    text.push_str("{")?;
    push_values(alloc, text, &shape.names, cells, at)?;
    let counts = skip(cells, at, shape.names.len());
    let inner = skip(cells, counts, shape.lists.len());
    let behind = !shape.names.is_empty();
    let end = push_lists(&shape.lists, alloc, text, cells, counts, inner, behind)?;
    text.push_str("}")?;
    Ok(end)
}

/// Appends lists, by the places of their counts and of their objects, and tells the place behind them.
#[cycle(objects)]
fn push_lists(
    lists: &Vec<QuotedList>,
    alloc: Global,
    text: &mut String,
    cells: &Cells,
    counts: usize,
    at: usize,
    behind: bool,
) -> Result<usize, AllocError>
    ensures text { OnOk result (string_bytes text.new ≡ string_bytes text.old
        ++ separated behind (entries_as_named (lists_at (lists.now).items cells.now counts at).object)) }
    ensures place { IfOk result (λ end. drop end (cells_view cells.now)
        ≡ (lists_at (lists.now).items cells.now counts at).rest) }
{
    let mut inner = at;
    'lists: for (number, list) in lists.iter().enumerate() {
        push_comma(text, stands_before(behind, number))?;
        text.push_str(list.name.as_str())?;
        let count = count_at(cells, skip(cells, counts, number));
        text.push_str("[")?;
        inner = push_objects(&list.shape, alloc, text, cells, count, inner)?;
        text.push_str("]")?;
    }
    Ok(inner)
}

/// Appends so many objects, and tells the place behind them.
#[cycle(objects)]
fn push_objects(
    shape: &QuotedShape,
    alloc: Global,
    text: &mut String,
    cells: &Cells,
    count: u64,
    at: usize,
) -> Result<usize, AllocError>
    ensures text { OnOk result (string_bytes text.new ≡ string_bytes text.old
        ++ separated false (texts_as_named (objects_of (objects_at shape.now cells.now count at).objects))) }
    ensures place { IfOk result (λ end. drop end (cells_view cells.now)
        ≡ (objects_at shape.now cells.now count at).rest) }
{
    let mut next = at;
    'objects: for number in 0..count {
        push_comma(text, number > 0)?;
        next = push_object(shape, alloc, text, cells, next)?;
    }
    Ok(next)
}
