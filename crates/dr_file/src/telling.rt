//! Columns of what a file lacks.

ghost use Rattle.std.specs.Prelude.{◌≡◌, ◌<◌, ◌++◌, ◌∷◌, [], None, Ok, OnOk, OnErr, min, replicate};
ghost use Rattle.dr_meaning.specs.Column.{triplet};
ghost use Rattle.dr_formats.specs.Lacking.{outline};
ghost use Rattle.dr_levels.specs.Views.{column_view, column_form};
ghost use Rattle.dr_file.specs.Floors.{bare};

use dr_levels::{Column, Levels};
use dr_memory::NoMemory;

/// Appends so many NULLs, one for each row, to the column of a leaf that the records lack.
///
/// Errors: want of memory alone. The column is then as it was.
pub(crate) fn push_rows(out: &mut Column, rows: usize) -> Result<(), NoMemory>
    requires { 0 < (column_form out.old).greatest }
    ensures nulls { OnOk result (column_view out.new ≡ column_view out.old ++ replicate rows (triplet 0 0 None)) }
    ensures stays { OnErr result (column_view out.new ≡ column_view out.old) }
    ensures form { column_form out.new ≡ column_form out.old }
{
    let absent = Levels {
        repetition: 0,
        definition: 0,
    };
    out.push_nulls(absent, rows)
}

/// The levels of a triplet in an outline that is cut to this definition level.
fn cut(levels: Levels, definition: u8) -> Levels
    ensures repetition { result.repetition ≡ levels.repetition }
    ensures definition { result.definition ≡ min levels.definition definition }
{
    if levels.definition <= definition {
        levels
    } else {
        Levels {
            repetition: levels.repetition,
            definition,
        }
    }
}

/// Appends what a triplet of these levels has in an outline: nothing where it has a greater repetition level, else a
/// NULL.
///
/// Errors: want of memory alone. The column is then as it was.
fn push_cut(out: &mut Column, most: Levels, levels: Levels) -> Result<(), NoMemory>
    requires { most.definition < (column_form out.old).greatest }
    ensures outline { OnOk result (column_view out.new
        ≡ column_view out.old ++ outline most.repetition most.definition (bare levels ∷ [])) }
    ensures stays { OnErr result (column_view out.new ≡ column_view out.old) }
    ensures form { column_form out.new ≡ column_form out.old }
{
    if levels.repetition > most.repetition {
        return Ok(());
    }
    out.push_nulls(cut(levels, most.definition), 1)
}

/// Appends the outline of triplets to the column of a leaf that is lacking: a NULL for each of them of at most this
/// repetition level, their definition levels cut to this one.
///
/// Errors: want of memory alone. The column is then as it was.
pub(crate) fn push_outline(out: &mut Column, most: Levels, read: &Column) -> Result<(), NoMemory>
    requires { most.definition < (column_form out.old).greatest }
    ensures outline { OnOk result (column_view out.new
        ≡ column_view out.old ++ outline most.repetition most.definition (column_view read.now)) }
    ensures stays { OnErr result (column_view out.new ≡ column_view out.old) }
    ensures form { column_form out.new ≡ column_form out.old }
{
    let before = out.len();
    'levels: for levels in read.triplets().levels() {
        if let Err(NoMemory) = push_cut(out, most, *levels) {
            out.truncate(before);
            return Err(NoMemory);
        }
    }
    Ok(())
}
