//! Bodies of more values than a page can tell, and what a refused body leaves of a column.

ghost use Rattle.std.specs.Prelude.{◌≡◌, ◌≤◌, true};
ghost use Rattle.dr_nested.specs.Views.{kind_view};
ghost use Rattle.dr_levels.specs.Views.{form, column_form};
ghost use Rattle.dr_page.specs.Views.{shape_form, is_dictionary_of};

use dr_levels::Column;
use dr_nested::Kind;
use dr_page::{Dictionary, PageFault, PageForm, PageReader, Shape};
use std::alloc::Global;
use std::test::Fail;

/// More values than a page can tell.
const HUGE: u64 = 1 << 63;

/// How many triplets are wanted at once where memory isn't to run out.
const PIECE: usize = 1_024;

/// Values in PLAIN.
const PLAIN: i64 = 0;

/// Values as indices of a dictionary.
const RLE_DICTIONARY: i64 = 8;

/// What is known of a body of so many triplets, its values in an encoding, of a leaf that isn't repeated.
fn shape_of(kind: Kind, max_definition: u8, triplets: u64, encoding: i64) -> Shape
    requires { max_definition ≤ 32 }
    ensures form { shape_form result ≡ form (kind_view kind) max_definition }
    ensures kind { result.kind ≡ kind }
{
    Shape {
        form: PageForm::V1,
        triplets,
        encoding,
        definition_encoding: 3,
        repetition_encoding: 3,
        definition_bytes: 0,
        repetition_bytes: 0,
        kind,
        max_repetition: 0,
        max_definition,
    }
}

/// Reads the first triplets of a body into a column of its leaf, at most so many, and answers how many.
fn read_body(
    reader: &mut PageReader,
    shape: &Shape,
    dictionary: &Dictionary,
    bytes: &[u8],
    most: usize,
    out: &mut Column,
) -> Result<usize, PageFault>
    requires form { column_form out.old ≡ shape_form shape.now }
    requires dictionary { is_dictionary_of (kind_view (shape.now).kind) dictionary.now ≡ true }
    ensures { column_form out.new ≡ column_form out.old }
{
    reader.begin(shape, bytes)?;
    reader.next(dictionary, bytes, most, out)
}

/// What becomes of a piece of a body of too many values in PLAIN, and how many of them are then in the column.
fn huge_body(alloc: Global, kind: Kind, bytes: &[u8]) -> (Result<usize, PageFault>, usize) {
    let shape = shape_of(kind, 0, HUGE, PLAIN);
    let dictionary = Dictionary::none(alloc, kind);
    let mut column = Column::new(alloc, kind, 0);
    let mut reader = PageReader::new(alloc);
    let read = read_body(&mut reader, &shape, &dictionary, bytes, PIECE, &mut column);
    (read, column.len())
}

/// No page of a file tells so many values. What pages of files have is in the cases.
#[test]
fn more_values_than_bytes_are_refused(rt: HostRuntime) {
    let alloc = rt.alloc();
    let two = [
        1, 0, 0, 0, 0, 0, 0, 0, 0xff, 0xff, 0xff, 0xff, 0xff, 0xff, 0xff, 0xff,
    ];
    let refused = (Err(PageFault::BadData), 0);
    assert!(rt; huge_body(alloc, Kind::I64, &two) == refused);
    assert!(rt; huge_body(alloc, Kind::Bool, &two) == refused);
    assert!(rt; huge_body(alloc, Kind::Text, &[]) == refused);
}

// Seven and nine, in eight bytes each.
const NUMBERS: [u8; 16] = [7, 0, 0, 0, 0, 0, 0, 0, 9, 0, 0, 0, 0, 0, 0, 0];

/// The same of values of a dictionary, and of a dictionary itself.
#[test]
fn more_indices_than_bytes_are_refused(rt: HostRuntime) -> Result<(), Fail> {
    let alloc = rt.alloc();
    let shape = shape_of(Kind::I64, 0, HUGE, RLE_DICTIONARY);
    let dictionary = Dictionary::read(alloc, Kind::I64, 2, NUMBERS.to_vec(alloc)?).or(Err(
        "dictionary",
    ))?;
    let mut column = Column::new(alloc, Kind::I64, 0);
    let mut reader = PageReader::new(alloc);
    let read = read_body(
        &mut reader,
        &shape,
        &dictionary,
        &[1, 3, 2],
        PIECE,
        &mut column,
    );
    assert!(rt; read == Err(PageFault::BadData));
    assert_eq!(rt; column.len(), 0);
    let short = Dictionary::read(alloc, Kind::I64, HUGE, [0; 7].to_vec(alloc)?);
    assert!(rt; short.map(|_| ()) == Err(PageFault::BadData));
    Ok(())
}

/// A state: what a refused body leaves of a column, and more values than memory has room for.
#[test]
fn a_refused_body_leaves_the_column(rt: HostRuntime) -> Result<(), Fail> {
    let alloc = rt.alloc();
    let mut reader = PageReader::new(alloc);
    let dictionary = Dictionary::none(alloc, Kind::I64);
    let mut column = Column::new(alloc, Kind::I64, 1);
    let nulls = [5, 0, 0, 0, 0x80, 0x92, 0xf4, 1, 0];
    let many = shape_of(Kind::I64, 1, 2_000_000, PLAIN);
    let read = read_body(
        &mut reader,
        &many,
        &dictionary,
        &nulls,
        usize::MAX,
        &mut column,
    );
    assert!(rt; (read, column.len()) == (Ok(2_000_000), 2_000_000));
    let one = shape_of(Kind::I64, 1, 1, PLAIN);
    let bytes = [2, 0, 0, 0, 2, 1, 5, 0, 0, 0, 0, 0, 0, 0];
    let read = read_body(
        &mut reader,
        &one,
        &dictionary,
        &bytes,
        usize::MAX,
        &mut column,
    );
    assert!(rt; (read, column.len()) == (Ok(1), 2_000_001));
    let refused = Err(PageFault::BadData);
    let read = read_body(
        &mut reader,
        &one,
        &dictionary,
        &bytes[..13],
        usize::MAX,
        &mut column,
    );
    assert!(rt; (read, column.len()) == (refused, 2_000_001));
    let huge = shape_of(Kind::I64, 1, HUGE - 1, PLAIN);
    let nulls = [
        11, 0, 0, 0, 0xfe, 0xff, 0xff, 0xff, 0xff, 0xff, 0xff, 0xff, 0xff, 1, 0,
    ];
    let read = read_body(
        &mut reader,
        &huge,
        &dictionary,
        &nulls,
        usize::MAX,
        &mut column,
    );
    assert!(rt; (read, column.len()) == (Err(PageFault::NoMemory), 2_000_001));
    Ok(())
}
