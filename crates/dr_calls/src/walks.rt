//! Calls of `dr_walk`: the moves of walks over the columns of records, and over columns as they are given.

ghost use Rattle.std.specs.Prelude.{◌≡◌, true, map, None, IfOk};
ghost use Rattle.std.specs.List.{list_all};
ghost use Rattle.dr_meaning.specs.Path.{is_leaf_path};
ghost use Rattle.dr_nested.specs.Views.{fields_view};
ghost use Rattle.dr_nested.specs.PathView.{lent_path, path_view, paths_view};
ghost use Rattle.dr_moves.specs.Selection as selection;
ghost use Rattle.dr_striper.specs.Striping.{leaves_of};
ghost use Rattle.dr_striper.specs.Stripers.{striped_leaves};
ghost use Rattle.dr_striper.specs.Leaves.{is_leaf};

use crate::texts::{line_of, number_at, push_word};
use crate::triplets::{columns_of_text, push_triplet};
use dr_case_lines::Broken;
use dr_json::record_of;
use dr_levels::{Column, Move, Triplet};
use dr_nested::{Path, Schema, Step, find, is_record, parse_schema};
use dr_paths::same_path;
use dr_striper::Striper;
use dr_walk::{AssembleFault, Walk};
use std::alloc::Global;

/// The leaf of a schema that a word names.
fn leaf_of(alloc: Global, schema: &Schema, name: &str) -> Result<Path, Broken>
    ensures leaf { IfOk result (λ p. is_leaf (fields_view (schema.now).fields.items) (path_view p) ≡ true) }
    ensures path { IfOk result (λ p. is_leaf_path (fields_view (schema.now).fields.items) (path_view p).path ≡ true) }
{
    match find(alloc, schema, name) {
        Ok(field) => Ok(field),
        Err(_) => Err(Broken::Form),
    }
}

/// The leaves of a schema that words name.
fn leaves_named(alloc: Global, schema: &Schema, names: &[String]) -> Result<Vec<Path>, Broken>
    ensures leaves { IfOk result (λ v. list_all (is_leaf (fields_view (schema.now).fields.items)) (leaves_of v.items)
        ≡ true) }
    ensures paths { IfOk result (λ v. list_all (is_leaf_path (fields_view (schema.now).fields.items))
        (paths_view v.items) ≡ true) }
{
    let mut fields = Vec::new(alloc);
    'names: for name in names {
        fields.push(leaf_of(alloc, schema, name.as_str())?)?;
    }
    Ok(fields)
}

/// Whether a leaf is none of others.
fn differs(field: &Path, others: &[Path]) -> bool
    ensures { result ≡ selection.differs (path_view field.now).path (paths_view others.now) }
{
    match others {
        [] => true,
        [first, rest @ ..] => !same_path(&field.steps, &first.steps) && differs(field, rest),
    }
}

/// Whether no two leaves are the same.
fn all_differ(fields: &[Path]) -> bool
    ensures { result ≡ selection.all_differ (paths_view fields.now) }
{
    match fields {
        [] => true,
        [first, rest @ ..] => differs(first, rest) && all_differ(rest),
    }
}

/// The paths of leaves.
fn paths_in<'a>(alloc: Global, fields: &'a [Path]) -> Result<Vec<&'a [Step]>, Broken>
    ensures { IfOk result (λ v. map lent_path v.items ≡ paths_view fields.now) }
{
    let mut paths = Vec::with_capacity(alloc, fields.len())?;
    'fields: for field in fields {
        paths.push(field.steps.as_slice())?;
    }
    Ok(paths)
}

/// The next triplet of the leaf that is wanted, which is passed.
fn next_of<'a>(
    columns: &[Vec<Triplet<'a>>],
    places: &mut [usize],
    wanted: Option<u32>,
) -> Option<Triplet<'a>>
    ensures { wanted ≡ None → result ≡ None }
{
    let leaf = wanted? as usize;
    let place = places.get_mut(leaf)?;
    let triplet = columns.get(leaf)?.get(*place)?;
    *place = place.saturating_add(1);
    Some(*triplet)
}

/// Appends a move, and ends the line behind a record's last.
fn push_move(alloc: Global, text: &mut String, step: Move<'_>) -> Result<(), Broken> {
    match step {
        Move::Enter(number) => push_word(text, format!(in alloc; "+{number}")?.as_str()),
        Move::Leaf(leaf, triplet) => {
            push_word(text, format!(in alloc; "{leaf}:")?.as_str())?;
            push_triplet(alloc, text, triplet)
        }
        Move::Leave(number) => {
            push_word(text, format!(in alloc; "-{number}")?.as_str())?;
            if number == 0 {
                text.push_str("\n")?;
            }
            Ok(())
        }
    }
}

/// The moves of the walk over columns of so many records, or that no records have the columns.
fn walked(
    alloc: Global,
    schema: &Schema,
    fields: &[Path],
    rows: u64,
    columns: &[Vec<Triplet<'_>>],
) -> Result<String, Broken>
    requires { list_all (is_leaf_path (fields_view (schema.now).fields.items)) (paths_view fields.now) ≡ true }
{
    if columns.len() != fields.len() {
        return Err(Broken::Form);
    }
    if !all_differ(fields) {
        return Err(Broken::Form);
    }
    let paths = paths_in(alloc, fields)?;
    let mut walk = Walk::start(alloc, schema, &paths, rows)?;
    let mut places = vec![in alloc; 0usize; columns.len()]?;
    let mut text = String::new(alloc);
    for _ in 0..u64::MAX {
        match walk.next(next_of(columns, &mut places, walk.wants())) {
            Ok(Some(step)) => push_move(alloc, &mut text, step)?,
            Ok(None) => {
                if walk.wants().is_none() {
                    return Ok(text);
                }
            }
            Err(AssembleFault::BadData) => return line_of(alloc, "BadData"),
            Err(AssembleFault::NoMemory) => return Err(Broken::NoMemory),
        }
    }
    Err(Broken::Form)
}

/// Stripes the record of a line.
fn stripe_line(
    alloc: Global,
    schema: &Schema,
    line: &str,
    striper: &mut Striper<'_>,
) -> Result<(), Broken>
    requires { list_all (is_leaf (fields_view (schema.now).fields.items)) (striped_leaves striper.old) ≡ true }
    ensures { striped_leaves striper.new ≡ striped_leaves striper.old }
{
    let Ok(node) = record_of(alloc, schema, line.as_bytes()) else {
        return Err(Broken::Form);
    };
    if !is_record(schema, &node) {
        return Err(Broken::Form);
    }
    Ok(striper.add(&node)?)
}

/// The columns of the records of lines, and how many records there are.
fn striped(
    alloc: Global,
    schema: &Schema,
    fields: &[Path],
    text: &str,
) -> Result<(Vec<Column>, u64), Broken>
    requires { list_all (is_leaf (fields_view (schema.now).fields.items)) (leaves_of fields.now) ≡ true }
{
    let mut striper = Striper::new(alloc, fields)?;
    let mut rows = 0u64;
    'lines: for line in text.lines() {
        stripe_line(alloc, schema, line, &mut striper)?;
        rows = rows.saturating_add(1);
    }
    Ok((striper.finish(alloc)?, rows))
}

/// A column's triplets.
fn triplets_in(alloc: Global, column: &Column) -> Result<Vec<Triplet<'_>>, Broken> {
    let mut left = column.triplets();
    let mut triplets = Vec::new(alloc);
    for _ in 0..column.len() {
        if let Some(triplet) = left.next() {
            triplets.push(triplet)?;
        }
    }
    Ok(triplets)
}

/// The schema that the last word of a call writes, and the words before it.
fn schema_behind(alloc: Global, words: &[String]) -> Result<(Schema, &[String]), Broken> {
    let (last, others) = words.split_last().ok_or(Broken::Form)?;
    let schema = parse_schema(alloc, last.as_bytes()).or(Err(Broken::Form))?;
    Ok((schema, others))
}

/// `walk PATH .. SCHEMA`: the moves of the walk over these leaves' columns of the records of lines, a line for each
/// record.
pub fn records_walked(alloc: Global, words: &[String], bytes: &[u8]) -> Result<String, Broken> {
    let (schema, words) = schema_behind(alloc, words)?;
    let fields = leaves_named(alloc, &schema, words.get(1..).unwrap_or(&[]))?;
    let text = str::from_utf8(bytes).or(Err(Broken::Form))?;
    let (columns, rows) = striped(alloc, &schema, &fields, text)?;
    let mut triplets = Vec::new(alloc);
    for column in &columns {
        triplets.push(triplets_in(alloc, column)?)?;
    }
    walked(alloc, &schema, &fields, rows, &triplets)
}

/// `walk_columns ROWS PATH .. SCHEMA`: the moves of the walk over columns of so many records, a line for each leaf, or
/// that no records have them.
pub fn columns_walked(alloc: Global, words: &[String], bytes: &[u8]) -> Result<String, Broken> {
    let (schema, words) = schema_behind(alloc, words)?;
    let rows = number_at(words, 0)?;
    let fields = leaves_named(alloc, &schema, words.get(2..).unwrap_or(&[]))?;
    let text = str::from_utf8(bytes).or(Err(Broken::Form))?;
    let columns = columns_of_text(alloc, text)?;
    walked(alloc, &schema, &fields, rows, &columns)
}
