//! Taking the pages of a chunk, one after another.

ghost use Rattle.std.specs.Prelude.{◌≡◌, ◌≢◌, ◌<◌, ◌^◌, true, option_map, IfSome};
ghost use Rattle.dr_meaning.specs.Path.{Leaf};
ghost use Rattle.dr_nested.specs.Views.{kind_view};
ghost use Rattle.dr_page.specs.Views.{is_dictionary_of, dictionary_view};
ghost use Rattle.dr_chunk.specs.Shapes.{IsOfLeaf};

use crate::fault::ChunkFault;
use crate::leaf_shape::LeafShape;
use crate::page_shape::{shape_of, shape_of_v2};
use dr_levels::Column;
use dr_meta::{DictionaryPage, PageHead};
use dr_page::{Dictionary, PageReader, Shape};
use std::alloc::Global;

/// The numbers of page types (parquet.thrift, PageType).
const DATA_PAGE: i64 = 0;

const INDEX_PAGE: i64 = 1;

const DICTIONARY_PAGE: i64 = 2;

const DATA_PAGE_V2: i64 = 3;

/// The number of the encoding PLAIN.
const PLAIN: i64 = 0;
/// The number of the encoding PLAIN_DICTIONARY, as older writers name PLAIN on a dictionary page.
const PLAIN_DICTIONARY: i64 = 2;

/// What is known between the pages of a chunk: how many of its triplets are wanted of pages that are still to come,
/// whether a page came before, and the dictionary, with the size of its page's body.
#[derive(Drop)]
pub(crate) struct PageTaker {
    leaf: LeafShape,
    wanted: u64,
    is_first: bool,
    dictionary: Dictionary,
    dictionary_size: usize,
    ghost kind: { is_dictionary_of (kind_view leaf.kind) dictionary ≡ true },
    ghost small: { dictionary_size < 2 ^ 63 },
}

impl PageTaker {
    ghost use Rattle.std.specs.Prelude.{◌+◌, [], false, OnOk, OnErr, IfErr};
    ghost use Rattle.dr_formats.specs.Chunk.{taken, data_page, dictionary_page};
    ghost use Rattle.dr_formats.specs.Reading.{got};
    ghost use Rattle.dr_meta.specs.Views.{dictionary_page_view};
    ghost use Rattle.dr_page.specs.PageReading.{left_of};
    ghost use Rattle.dr_chunk.specs.Takers.{leaf_of, wanted_of, is_first_of, dictionary_of, dictionary_size_of, leaf_form, IsLeafOf, IsChunkFault};
    ghost use Rattle.dr_chunk.specs.Underway.{HasForm, BeginsPage, page_read, data_read};

    /// Before the first page of a chunk of which so many triplets are wanted.
    pub(crate) fn new(alloc: Global, leaf: LeafShape, wanted: u64) -> PageTaker
        ensures leaf { leaf_of result ≡ leaf }
        ensures wanted { wanted_of result ≡ wanted }
        ensures first { is_first_of result ≡ true }
        ensures dictionary { dictionary_of result ≡ [] }
        ensures size { dictionary_size_of result ≡ 0 }
    {
        PageTaker {
            leaf,
            wanted,
            is_first: true,
            dictionary: Dictionary::none(alloc, leaf.kind),
            dictionary_size: 0,
        }
    }

    /// How many triplets are wanted of the pages that are still to come.
    pub(crate) fn wanted(&self) -> u64
        ensures { result ≡ wanted_of self.now }
    {
        self.wanted
    }

    /// No page is wanted any more.
    pub(crate) fn stop(&mut self)
        ensures wanted { wanted_of self.new ≡ 0 }
        ensures leaf { leaf_of self.new ≡ leaf_of self.old }
    {
        self.wanted = 0;
    }

    /// The dictionary.
    pub(crate) fn dictionary(&self) -> &Dictionary
        ensures dictionary { dictionary_view result.now ≡ dictionary_of self.now }
        ensures kind { is_dictionary_of (leaf_form (leaf_of self.now)).kind result.now ≡ true }
    {
        &self.dictionary
    }

    /// How many bytes the body of its page has: 0 without one.
    pub(crate) fn dictionary_size(&self) -> usize
        ensures size { result ≡ dictionary_size_of self.now }
        ensures small { result < 2 ^ 63 }
    {
        self.dictionary_size
    }

    /// Takes a page: the reader begins its triplets, or its values are the dictionary from here on.
    ///
    /// Errors: there is no such page at this place of a chunk; want of memory. The reader then has no page.
    pub(crate) fn take_page(
        &mut self,
        alloc: Global,
        page: &mut PageReader,
        head: &PageHead,
        body: &[u8],
    ) -> Result<(), ChunkFault>
        requires { left_of page.old ≡ 0 }
        ensures begins { (l : Leaf) → IsLeafOf l (leaf_of self.old)
            → OnOk result (BeginsPage (page_read l self.old head.now body.now) body.now self.old self.new page.new) }
        ensures bad { (l : Leaf) → IsLeafOf l (leaf_of self.old)
            → IfErr result (λ e. IsChunkFault e (page_read l self.old head.now body.now)) }
        ensures count { OnOk result (wanted_of self.new + left_of page.new ≡ wanted_of self.old) }
        ensures form { HasForm (leaf_of self.old) page.new }
        ensures stays { OnErr result (wanted_of self.new ≡ wanted_of self.old) }
        ensures none { OnErr result (left_of page.new ≡ 0) }
        ensures first { OnOk result (is_first_of self.new ≡ false) }
        ensures leaf { leaf_of self.new ≡ leaf_of self.old }
        ensures calm { result ≢ Err ChunkFault.Failed }
    {
        self.take_by_type(alloc, page, head, body)?;
        self.is_first = false;
        Ok(())
    }

    /// As `take_page`, but for whether a page came before.
    fn take_by_type(
        &mut self,
        alloc: Global,
        page: &mut PageReader,
        head: &PageHead,
        body: &[u8],
    ) -> Result<(), ChunkFault>
        requires { left_of page.old ≡ 0 }
        ensures begins { (l : Leaf) → IsLeafOf l (leaf_of self.old)
            → OnOk result (BeginsPage (page_read l self.old head.now body.now) body.now self.old self.new page.new) }
        ensures bad { (l : Leaf) → IsLeafOf l (leaf_of self.old)
            → IfErr result (λ e. IsChunkFault e (page_read l self.old head.now body.now)) }
        ensures count { OnOk result (wanted_of self.new + left_of page.new ≡ wanted_of self.old) }
        ensures form { HasForm (leaf_of self.old) page.new }
        ensures stays { OnErr result (wanted_of self.new ≡ wanted_of self.old) }
        ensures none { OnErr result (left_of page.new ≡ 0) }
        ensures leaf { leaf_of self.new ≡ leaf_of self.old }
        ensures calm { result ≢ Err ChunkFault.Failed }
    {
        match head.kind {
            DATA_PAGE => self.take_data(page, shape_of(self.leaf, head.data_page), body),
            INDEX_PAGE => Ok(()),
            DICTIONARY_PAGE => self.take_dictionary(alloc, head.dictionary_page, body),
            DATA_PAGE_V2 => self.take_data(page, shape_of_v2(self.leaf, head.data_page_v2), body),
            _ => Err(ChunkFault::BadData),
        }
    }

    /// Takes a data page of this shape.
    ///
    /// Errors: it has no header of its type, or more triplets than are wanted, or spells none; want of memory. The
    /// reader then has no page.
    fn take_data(
        &mut self,
        page: &mut PageReader,
        shape: Option<Shape>,
        body: &[u8],
    ) -> Result<(), ChunkFault>
        requires none { left_of page.old ≡ 0 }
        requires shape { IfSome shape (λ s. IsOfLeaf (leaf_of self.old) s) }
        ensures begins { OnOk result (BeginsPage (data_read self.old shape body.now) body.now self.old self.new
            page.new) }
        ensures bad { IfErr result (λ e. IsChunkFault e (data_read self.old shape body.now)) }
        ensures count { OnOk result (wanted_of self.new + left_of page.new ≡ wanted_of self.old) }
        ensures form { HasForm (leaf_of self.old) page.new }
        ensures stays { OnErr result (wanted_of self.new ≡ wanted_of self.old) }
        ensures none { OnErr result (left_of page.new ≡ 0) }
        ensures leaf { leaf_of self.new ≡ leaf_of self.old }
        ensures first { is_first_of self.new ≡ is_first_of self.old }
        ensures calm { result ≢ Err ChunkFault.Failed }
    {
        let Some(shape) = shape else {
            return Err(ChunkFault::BadData);
        };
        if shape.triplets > self.wanted {
            return Err(ChunkFault::BadData);
        }
        page.begin(&shape, body)?;
        self.wanted -= shape.triplets;
        Ok(())
    }

    /// Takes a dictionary page.
    ///
    /// Errors: it has no header of its own, or isn't the first page, or its encoding isn't PLAIN, or it spells no
    /// values; want of memory.
    fn take_dictionary(
        &mut self,
        alloc: Global,
        page: Option<DictionaryPage>,
        body: &[u8],
    ) -> Result<(), ChunkFault>
        ensures given { (l : Leaf) → IsLeafOf l (leaf_of self.old)
            → OnOk result (dictionary_page l (is_first_of self.old) body.now
            (option_map dictionary_page_view page) [] ≡ got (taken [] (dictionary_of self.new)) []) }
        ensures bad { (l : Leaf) → IsLeafOf l (leaf_of self.old)
            → IfErr result (λ e. IsChunkFault e (dictionary_page l (is_first_of self.old) body.now
            (option_map dictionary_page_view page) [])) }
        ensures wanted { wanted_of self.new ≡ wanted_of self.old }
        ensures leaf { leaf_of self.new ≡ leaf_of self.old }
        ensures first { is_first_of self.new ≡ is_first_of self.old }
        ensures calm { result ≢ Err ChunkFault.Failed }
    {
        let Some(page) = page else {
            return Err(ChunkFault::BadData);
        };
        if !self.is_first || (page.encoding != PLAIN && page.encoding != PLAIN_DICTIONARY) {
            return Err(ChunkFault::BadData);
        }
        let bytes = Vec::from_slice(alloc, body)?;
        self.dictionary = Dictionary::read(alloc, self.leaf.kind, page.values.get(), bytes)?;
        self.dictionary_size = body.len();
        Ok(())
    }
}
