//! A call of `dr_page`: the body of a page, read a piece at a time.

ghost use Rattle.std.specs.Prelude.{◌≡◌, ◌≤◌, true, IfOk};
ghost use Rattle.dr_nested.specs.Views.{kind_view};
ghost use Rattle.dr_levels.specs.Views.{column_form};
ghost use Rattle.dr_page.specs.Views.{shape_form, is_dictionary_of};
ghost use Rattle.dr_page.specs.PageReading.{reader_form};

use crate::faults::page_name;
use crate::texts::{argument, count_of, line_of, number_at};
use crate::triplets::push_triplet;
use crate::values::kind_at;
use dr_case_lines::Broken;
use dr_levels::Column;
use dr_nested::Kind;
use dr_page::{Dictionary, GREATEST_LEVEL, PageFault, PageForm, PageReader, Shape};
use std::alloc::Global;

/// The encoding of levels.
const RLE: i64 = 3;

/// How many words stand before those of the pieces.
const WORDS_BEFORE: usize = 11;

/// The form of a page that an argument names.
fn form_at(words: &[String], place: usize) -> Result<PageForm, Broken> {
    match argument(words, place)? {
        "v1" => Ok(PageForm::V1),
        "v2" => Ok(PageForm::V2),
        _ => Err(Broken::Form),
    }
}

/// The greatest level of a leaf that an argument writes.
fn greatest_at(words: &[String], place: usize) -> Result<u8, Broken>
    ensures { IfOk result (λ g. g ≤ 32) }
{
    let greatest = argument(words, place)?.parse::<u8>().or(Err(Broken::Form))?;
    if greatest > GREATEST_LEVEL {
        return Err(Broken::Form);
    }
    Ok(greatest)
}

/// What the arguments tell of a page.
fn shape_at(words: &[String]) -> Result<Shape, Broken> {
    let encoding = argument(words, 2)?.parse::<i64>().or(Err(Broken::Form))?;
    let max_repetition = greatest_at(words, 4)?;
    let max_definition = greatest_at(words, 5)?;
    Ok(Shape {
        form: form_at(words, 0)?,
        triplets: number_at(words, 3)?,
        encoding,
        definition_encoding: RLE,
        repetition_encoding: RLE,
        definition_bytes: number_at(words, 7)?,
        repetition_bytes: number_at(words, 6)?,
        kind: kind_at(words, 1)?,
        max_repetition,
        max_definition,
    })
}

/// The dictionary of so many values that bytes are.
fn dictionary_of(alloc: Global, kind: Kind, count: u64, bytes: &[u8]) -> Result<Dictionary, Broken>
    ensures { IfOk result (λ d. is_dictionary_of (kind_view kind) d ≡ true) }
{
    match Dictionary::read(alloc, kind, count, bytes.to_vec(alloc)?) {
        Ok(dictionary) => Ok(dictionary),
        Err(_) => Err(Broken::Form),
    }
}

/// A column's triplets, each behind a blank.
fn column_text(alloc: Global, column: &Column) -> Result<String, Broken> {
    let mut text = String::new(alloc);
    let mut left = column.triplets();
    for _ in 0..column.len() {
        if let Some(triplet) = left.next() {
            text.push_str(" ")?;
            push_triplet(alloc, &mut text, triplet)?;
        }
    }
    Ok(text)
}

/// The line of what a call answered, for which a column was filled that had these triplets before; no line, where it
/// is another column now than by the answer.
fn line_of_piece(
    alloc: Global,
    read: Result<usize, PageFault>,
    before: &str,
    length: usize,
    column: &Column,
) -> Result<String, Broken> {
    let added = column.len().checked_sub(length).ok_or(Broken::Form)?;
    let after = column_text(alloc, column)?;
    let more = after.as_str().strip_prefix(before).ok_or(Broken::Form)?;
    match read {
        Ok(count) if count == added => Ok(format!(in alloc; "{}\n", more.trim_start())?),
        Err(fault) if added == 0 => line_of(alloc, page_name(fault)),
        _ => Err(Broken::Form),
    }
}

/// The line of the next triplets, at most so many, or of their fault.
fn next_line(
    alloc: Global,
    reader: &mut PageReader,
    dictionary: &Dictionary,
    body: &[u8],
    most: usize,
    column: &mut Column,
) -> Result<String, Broken>
    requires form { column_form column.old ≡ reader_form reader.old }
    requires dictionary { is_dictionary_of (reader_form reader.old).kind dictionary.now ≡ true }
    ensures form { column_form column.new ≡ column_form column.old }
    ensures reader { reader_form reader.new ≡ reader_form reader.old }
{
    let before = column_text(alloc, column)?;
    let length = column.len();
    let read = reader.next(dictionary, body, most, column);
    line_of_piece(alloc, read, before.as_str(), length, column)
}

/// The lines of the pieces of a page that words write, and of what `begin` refuses.
fn pieces_text(
    alloc: Global,
    shape: &Shape,
    dictionary: &Dictionary,
    body: &[u8],
    pieces: &[String],
) -> Result<String, Broken>
    requires { is_dictionary_of (kind_view (shape.now).kind) dictionary.now ≡ true }
{
    let mut reader = PageReader::new(alloc);
    let mut column = Column::new(alloc, shape.kind, shape.max_definition);
    let mut text = String::new(alloc);
    if let Err(fault) = reader.begin(shape, body) {
        return Ok(format!(in alloc; "begin: {}\n", page_name(fault))?);
    }
    'pieces: for piece in pieces {
        if piece.as_str() == "again" {
            reader.begin(shape, body).or(Err(Broken::Form))?;
        } else {
            let most = count_of(piece.as_str())?;
            let line = next_line(alloc, &mut reader, dictionary, body, most, &mut column)?;
            text.push_str(line.as_str())?;
        }
    }
    Ok(text)
}

/// `page_pieces FORM KIND ENCODING TRIPLETS R D REPETITIONS DEFINITIONS COUNT SIZE MOST ..`: the next triplets of a
/// page's body, at most so many, or the fault, a line for each number.
pub fn page_by_pieces(alloc: Global, words: &[String], bytes: &[u8]) -> Result<String, Broken> {
    let shape = shape_at(words)?;
    let count = number_at(words, 8)?;
    let size = count_of(argument(words, 9)?)?;
    let (front, body) = bytes.split_at_checked(size).ok_or(Broken::Form)?;
    let dictionary = dictionary_of(alloc, shape.kind, count, front)?;
    let pieces = words.get(WORDS_BEFORE..).ok_or(Broken::Form)?;
    pieces_text(alloc, &shape, &dictionary, body, pieces)
}
