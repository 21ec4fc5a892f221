//! Reading page bodies a piece at a time.

use crate::dictionary::Dictionary;
use crate::encoding::encoding_for;
use crate::fault::PageFault;
use crate::level_pairs::LevelPairs;
use crate::part::{BodyParts, Part, find_parts};
use crate::shape::Shape;
use crate::value_cursor::ValueCursor;
use dr_levels::Column;
use dr_nested::Kind;
use std::alloc::Global;

/// Reads the body of a data page a piece at a time, with buffers that are used again page after page.
#[derive(Drop)]
pub struct PageReader {
    pub(crate) kind: Kind,
    /// How many triplets were not given.
    pub(crate) left: u64,
    /// Why the page is refused from now on, where it is.
    pub(crate) refused: Option<PageFault>,
    pub(crate) parts: BodyParts,
    pub(crate) levels: LevelPairs,
    pub(crate) values: ValueCursor,
}

/// A part of no body.
const NO_PART: Part = Part { start: 0, end: 0 };

impl PageReader {
    ghost use Rattle.std.specs.Prelude.{◌≡◌, ◌+◌, [], List, min, true, Some, Err, IfOk, IfErr, OnOk, OnErr};
    ghost use Rattle.dr_page.specs.declared.fault.PageFault.{PageFault};
    ghost use Rattle.dr_meaning.specs.Record.{Value};
    ghost use Rattle.dr_formats.specs.Page.{page_triplets};
    ghost use Rattle.dr_levels.specs.Views.{column_view, column_form};
    ghost use Rattle.dr_page.specs.Views.{shape_view, shape_form, dictionary_view, is_dictionary_of};
    ghost use Rattle.dr_page.specs.Reads.{WhereNone};
    ghost use Rattle.dr_page.specs.PageReading.{front_of, left_of, reader_form, refused_of, IsReading, Lengthens, GivesNext};

    /// A reader without a page. Takes no memory.
    pub fn new(alloc: Global) -> PageReader
        ensures { left_of result ≡ 0 }
    {
        PageReader {
            kind: Kind::Bool,
            left: 0,
            refused: None,
            parts: BodyParts {
                repetitions: NO_PART,
                definitions: NO_PART,
                values: 0,
            },
            levels: LevelPairs::new(alloc),
            values: ValueCursor::new(alloc),
        }
    }

    /// How many triplets of the page were not given: none without a page.
    pub fn left(&self) -> u64
        ensures { result ≡ left_of self.now }
    {
        self.left
    }

    /// Begins the body of a data page, of which nothing was given yet; there may be bytes behind it.
    ///
    /// Errors: the bytes spell no triplets of the shape, not even none; want of memory. It then has no page.
    pub fn begin(&mut self, shape: &Shape, bytes: &[u8]) -> Result<(), PageFault>
        ensures begun { OnOk result ((d : List Value) → IsReading (shape_view shape.now) d bytes.now [] self.new) }
        ensures form { OnOk result (reader_form self.new ≡ shape_form shape.now) }
        ensures left { OnOk result (left_of self.new ≡ (shape.now).triplets) }
        ensures bad { IfErr result (λ e. (d : List Value)
            → WhereNone e (page_triplets (front_of 0 (shape_view shape.now)) d bytes.now)) }
        ensures whole { IfErr result (λ e. (d : List Value)
            → WhereNone e (page_triplets (shape_view shape.now) d bytes.now)) }
        ensures none { OnErr result (left_of self.new ≡ 0) }
    {
        self.left = 0;
        self.refused = None;
        let Some(encoding) = encoding_for(shape.kind, shape.encoding) else {
            return Err(PageFault::BadData);
        };
        let parts = find_parts(shape, bytes)?;
        self.kind = shape.kind;
        self.parts = parts;
        self.levels
            .begin(shape.max_repetition, shape.max_definition);
        self.values.begin(encoding, &bytes[parts.values..]);
        self.left = shape.triplets;
        Ok(())
    }

    /// Appends the next triplets of the page to a column of its leaf, at most so many, and answers how many: 0 only
    /// where none are wanted, or left. The bytes are those that it began, the dictionary is the chunk's.
    ///
    /// Errors: the bytes spell no triplets of the shape, not even as many as were given, with these; want of memory, or
    /// of room for texts. The column is then as it was. A refusal is repeated until another page begins.
    pub fn next(
        &mut self,
        dictionary: &Dictionary,
        bytes: &[u8],
        most: usize,
        out: &mut Column,
    ) -> Result<usize, PageFault>
        requires form { column_form out.old ≡ reader_form self.old }
        requires dictionary { is_dictionary_of (reader_form self.old).kind dictionary.now ≡ true }
        ensures gives { GivesNext (dictionary_view dictionary.now) bytes.now (min most (left_of self.old))
            (column_view out.old) (column_view out.new) self.old self.new result }
        ensures count { IfOk result (λ n. n ≡ min most (left_of self.old)) }
        ensures left { IfOk result (λ n. n + left_of self.new ≡ left_of self.old) }
        ensures longer { IfOk result (λ n. Lengthens (column_view out.old) (column_view out.new) n) }
        ensures stays { OnErr result (column_view out.new ≡ column_view out.old) }
        ensures again { (fault : PageFault) → refused_of self.old ≡ Some fault → result ≡ Err fault }
        ensures refused { (fault : PageFault) → result ≡ Err fault → refused_of self.new ≡ Some fault }
        ensures form { column_form out.new ≡ column_form out.old }
        ensures reader { reader_form self.new ≡ reader_form self.old }
    {
        if let Some(fault) = self.refused {
            return Err(fault);
        }
        match self.give(dictionary, bytes, most, out) {
            Ok(count) => Ok(count),
            Err(fault) => {
                self.refused = Some(fault);
                Err(fault)
            }
        }
    }

    /// The same of a page that isn't refused, where a refusal isn't noted.
    fn give(
        &mut self,
        dictionary: &Dictionary,
        bytes: &[u8],
        most: usize,
        out: &mut Column,
    ) -> Result<usize, PageFault>
        requires form { column_form out.old ≡ reader_form self.old }
        requires dictionary { is_dictionary_of (reader_form self.old).kind dictionary.now ≡ true }
        ensures gives { GivesNext (dictionary_view dictionary.now) bytes.now (min most (left_of self.old))
            (column_view out.old) (column_view out.new) self.old self.new result }
        ensures count { IfOk result (λ n. n ≡ min most (left_of self.old)) }
        ensures left { IfOk result (λ n. n + left_of self.new ≡ left_of self.old) }
        ensures longer { IfOk result (λ n. Lengthens (column_view out.old) (column_view out.new) n) }
        ensures stays { OnErr result (column_view out.new ≡ column_view out.old) }
        ensures form { column_form out.new ≡ column_form out.old }
        ensures reader { reader_form self.new ≡ reader_form self.old }
    {
        let count = self.left.min(most as u64) as usize;
        self.levels.next(self.parts, bytes, count)?;
        let values = self.levels.count_values();
        let rest = &bytes[self.parts.values.min(bytes.len())..];
        self.values.extend(self.kind, dictionary, rest, &self.levels.pairs, values, out)?;
        self.left -= count as u64;
        Ok(count)
    }
}
