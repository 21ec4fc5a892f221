//! Values of a page's body, a piece at a time.

ghost use Rattle.std.specs.Prelude.{◌≡◌, ℕ, List, length, OnOk};
ghost use Rattle.dr_page.specs.LevelPieces.{piece_of};
ghost use Rattle.dr_page.specs.ValuePieces.{HasBits, TakesBits};

use crate::dictionary::{Dictionary, Texts};
use crate::encoding::ValueEncoding;
use crate::fault::PageFault;
use crate::index_cursor::IndexCursor;
use crate::level_cursor::LevelCursor;
use crate::part::sized_part;
use crate::picking::pick_items;
use crate::rle_bools::put_bits;
use crate::text_places::read_places;
use dr_levels::{Column, Levels, TextPlace};
use dr_nested::Kind;
use dr_plain::PlainReader;
use std::alloc::Global;

/// Values behind the levels of a body, read a piece at a time, with buffers that are used again.
#[derive(Drop)]
pub(crate) struct ValueCursor {
    pub(crate) encoding: ValueEncoding,
    pub(crate) plain: PlainReader,
    pub(crate) indices: IndexCursor,
    pub(crate) bits: LevelCursor,
    pub(crate) bools: Vec<bool>,
    pub(crate) integers: Vec<i64>,
    texts: Vec<dr_plain::TextPlace>,
    pub(crate) places: Vec<TextPlace>,
}

impl ValueCursor {
    ghost use Rattle.std.specs.Prelude.{ℤ, [], map, true, IfOk, OnErr};
    ghost use Rattle.std.specs.List.{list_all};
    ghost use Rattle.dr_meaning.specs.Schema as tree;
    ghost use Rattle.dr_meaning.specs.Record.{Value, bool_value, int_value};
    ghost use Rattle.dr_nested.specs.Views.{kind_view};
    ghost use Rattle.dr_levels.specs.Dense.{is_integer_kind, present};
    ghost use Rattle.dr_levels.specs.Texts.{is_text};
    ghost use Rattle.dr_levels.specs.Views.{column_view, column_form};
    ghost use Rattle.dr_page.specs.Encodings.{IsFor};
    ghost use Rattle.dr_page.specs.Views.{is_dictionary_of};
    ghost use Rattle.dr_page.specs.PageReading.{Lengthens};
    ghost use Rattle.dr_page.specs.ValuePieces.{HasValues, TakesNextValues, TakesNextTexts, ExtendsByNext};

    /// A cursor over nothing. Takes no memory.
    pub(crate) fn new(alloc: Global) -> ValueCursor {
        ValueCursor {
            encoding: ValueEncoding::Plain,
            plain: PlainReader::new(),
            indices: IndexCursor::new(alloc),
            bits: LevelCursor::new(alloc),
            bools: Vec::new(alloc),
            integers: Vec::new(alloc),
            texts: Vec::new(alloc),
            places: Vec::new(alloc),
        }
    }

    /// Begins values of this encoding; hybrid data has truth values alone.
    pub(crate) fn begin(&mut self, encoding: ValueEncoding, bytes: &[u8])
        ensures { (z : ℤ) (k : tree.Kind) (d : List Value) → IsFor encoding k z
            → HasValues z k d bytes.now [] self.new }
    {
        self.encoding = encoding;
        self.plain = PlainReader::new();
        self.indices.begin(bytes);
        self.bits.begin(1);
    }

    /// Appends triplets of these levels to a column of the kind, with the next values, as many as the levels have.
    pub(crate) fn extend(
        &mut self,
        kind: Kind,
        dictionary: &Dictionary,
        bytes: &[u8],
        pairs: &[Levels],
        count: usize,
        out: &mut Column,
    ) -> Result<(), PageFault>
        requires kind { (column_form out.old).kind ≡ kind_view kind }
        requires dictionary { is_dictionary_of (kind_view kind) dictionary.now ≡ true }
        requires as_many { present (column_form out.old).greatest pairs.now ≡ count }
        ensures next { ExtendsByNext (kind_view kind) dictionary.now bytes.now count pairs.now out.old out.new
            self.old self.new result }
        ensures longer { OnOk result (Lengthens (column_view out.old) (column_view out.new) (length pairs.now)) }
        ensures stays { OnErr result (column_view out.new ≡ column_view out.old) }
        ensures form { column_form out.new ≡ column_form out.old }
    {
        match kind {
            Kind::Bool => self.extend_bools(dictionary, bytes, pairs, count, out),
            Kind::I32 | Kind::I64 => self.extend_integers(
                kind, dictionary, bytes, pairs, count, out,
            ),
            Kind::Text => self.extend_texts(dictionary, bytes, pairs, count, out),
        }
    }

    /// Appends triplets of these levels, with the next truth values, as many as the levels have.
    fn extend_bools(
        &mut self,
        dictionary: &Dictionary,
        bytes: &[u8],
        pairs: &[Levels],
        count: usize,
        out: &mut Column,
    ) -> Result<(), PageFault>
        requires kind { (column_form out.old).kind ≡ tree.bool_kind }
        requires dictionary { is_dictionary_of tree.bool_kind dictionary.now ≡ true }
        requires as_many { present (column_form out.old).greatest pairs.now ≡ count }
        ensures next { ExtendsByNext tree.bool_kind dictionary.now bytes.now count pairs.now out.old out.new
            self.old self.new result }
        ensures longer { OnOk result (Lengthens (column_view out.old) (column_view out.new) (length pairs.now)) }
        ensures stays { OnErr result (column_view out.new ≡ column_view out.old) }
        ensures form { column_form out.new ≡ column_form out.old }
    {
        self.next_bools(dictionary.bools(), bytes, count)?;
        Ok(out.extend_bools(pairs, &self.bools)?)
    }

    /// Appends triplets of these levels, with the next whole numbers, as many as the levels have.
    fn extend_integers(
        &mut self,
        kind: Kind,
        dictionary: &Dictionary,
        bytes: &[u8],
        pairs: &[Levels],
        count: usize,
        out: &mut Column,
    ) -> Result<(), PageFault>
        requires integers { is_integer_kind (kind_view kind) ≡ true }
        requires kind { (column_form out.old).kind ≡ kind_view kind }
        requires dictionary { is_dictionary_of (kind_view kind) dictionary.now ≡ true }
        requires as_many { present (column_form out.old).greatest pairs.now ≡ count }
        ensures next { ExtendsByNext (kind_view kind) dictionary.now bytes.now count pairs.now out.old out.new
            self.old self.new result }
        ensures longer { OnOk result (Lengthens (column_view out.old) (column_view out.new) (length pairs.now)) }
        ensures stays { OnErr result (column_view out.new ≡ column_view out.old) }
        ensures form { column_form out.new ≡ column_form out.old }
    {
        self.next_integers(kind, dictionary.integers(), bytes, count)?;
        Ok(out.extend_integers(pairs, &self.integers)?)
    }

    /// Appends triplets of these levels, with the next texts, as many as the levels have.
    fn extend_texts(
        &mut self,
        dictionary: &Dictionary,
        bytes: &[u8],
        pairs: &[Levels],
        count: usize,
        out: &mut Column,
    ) -> Result<(), PageFault>
        requires kind { (column_form out.old).kind ≡ tree.text_kind }
        requires dictionary { is_dictionary_of tree.text_kind dictionary.now ≡ true }
        requires as_many { present (column_form out.old).greatest pairs.now ≡ count }
        ensures next { ExtendsByNext tree.text_kind dictionary.now bytes.now count pairs.now out.old out.new
            self.old self.new result }
        ensures longer { OnOk result (Lengthens (column_view out.old) (column_view out.new) (length pairs.now)) }
        ensures stays { OnErr result (column_view out.new ≡ column_view out.old) }
        ensures form { column_form out.new ≡ column_form out.old }
    {
        let texts = self.next_texts(dictionary.texts(), bytes, count)?;
        Ok(out.extend_texts(pairs, texts, &self.places)?)
    }

    /// Puts the next truth values into the place of others, as many as are wanted.
    fn next_bools(
        &mut self,
        dictionary: &[bool],
        bytes: &[u8],
        count: usize,
    ) -> Result<(), PageFault>
        ensures next { TakesNextValues tree.bool_kind (map bool_value dictionary.now) bytes.now count
            (map bool_value (self.new).bools.items) self.old self.new result }
        ensures count { OnOk result (length (self.new).bools.items ≡ count) }
    {
        match self.encoding {
            ValueEncoding::Plain => {
                self.bools.clear();
                self.plain.next_bools(bytes, count, &mut self.bools)?;
                Ok(())
            }
            ValueEncoding::Dictionary => {
                self.indices.next(bytes, count)?;
                pick_items(dictionary, &self.indices.indices, &mut self.bools)
            }
            ValueEncoding::Hybrid => {
                next_bits(&mut self.bits, bytes, count)?;
                let bits = &self.bits;
                Ok(put_bits(&bits.levels, &mut self.bools)?)
            }
        }
    }

    /// Puts the next whole numbers into the place of others, as many as are wanted.
    fn next_integers(
        &mut self,
        kind: Kind,
        dictionary: &[i64],
        bytes: &[u8],
        count: usize,
    ) -> Result<(), PageFault>
        requires { is_integer_kind (kind_view kind) ≡ true }
        ensures next { TakesNextValues (kind_view kind) (map int_value dictionary.now) bytes.now count
            (map int_value (self.new).integers.items) self.old self.new result }
        ensures count { OnOk result (length (self.new).integers.items ≡ count) }
    {
        match self.encoding {
            ValueEncoding::Plain => {
                self.integers.clear();
                match kind {
                    Kind::I32 => self.plain.next_int32s(bytes, count, &mut self.integers)?,
                    Kind::I64 => self.plain.next_int64s(bytes, count, &mut self.integers)?,
                    Kind::Bool | Kind::Text => unreachable!(),
                }
                Ok(())
            }
            ValueEncoding::Dictionary => {
                self.indices.next(bytes, count)?;
                pick_items(dictionary, &self.indices.indices, &mut self.integers)
            }
            ValueEncoding::Hybrid => Err(PageFault::BadData),
        }
    }

    /// Puts the places of the next texts into the place of others, as many as are wanted, and answers the buffer that
    /// they are places of.
    fn next_texts<'a>(
        &mut self,
        dictionary: &'a Texts,
        bytes: &'a [u8],
        count: usize,
    ) -> Result<&'a [u8], PageFault>
        ensures next { TakesNextTexts dictionary.now bytes.now count (self.new).places.items self.old self.new result }
        ensures count { OnOk result (length (self.new).places.items ≡ count) }
        ensures texts { IfOk result (λ b. list_all (is_text b.now) (self.new).places.items ≡ true) }
    {
        match self.encoding {
            ValueEncoding::Plain => {
                let texts = self.plain.next_texts(bytes, count, &mut self.texts)?;
                read_places(&self.texts, &mut self.places)?;
                Ok(texts)
            }
            ValueEncoding::Dictionary => {
                self.indices.next(bytes, count)?;
                pick_items(&dictionary.places, &self.indices.indices, &mut self.places)?;
                Ok(&dictionary.bytes)
            }
            ValueEncoding::Hybrid => Err(PageFault::BadData),
        }
    }
}

/// Puts the next bits into the place of the last piece, as many as are wanted: hybrid data behind its length, as levels
/// of which 1 is the greatest. As long as none is wanted no byte is needed.
fn next_bits(bits: &mut LevelCursor, bytes: &[u8], count: usize) -> Result<(), PageFault>
    ensures next { (given : List ℕ) → HasBits bytes.now given bits.old
        → TakesBits bytes.now given count bits.new result }
    ensures count { OnOk result (length (piece_of bits.new) ≡ count) }
{
    if count == 0 {
        bits.levels.clear();
        return Ok(());
    }
    let part = sized_part(bytes, 0)?;
    bits.next(&bytes[part.start..part.end], count)
}
