//! The headers of pages.

ghost use Rattle.std.specs.Prelude.{◌≡◌, ℕ, List, length, map, IfOk};
ghost use Rattle.dr_meaning.specs.Column.{Triplet};
ghost use Rattle.dr_meaning.specs.OneColumn.{starts};
ghost use Rattle.dr_formats.specs.Page.{data_page_v1, data_page_v2};
ghost use Rattle.dr_formats.specs.Writing.{header_of_page, null_count};
ghost use Rattle.dr_levels.specs.Lent.{lent_values};
ghost use Rattle.dr_levels.specs.Views.{triplets_view, levels_pair, triplet_levels};
ghost use Rattle.dr_meta.specs.Views.{page_view};
ghost use Rattle.dr_page.specs.Views.{page_form_view};
ghost use Rattle.dr_page.specs.Writes.{AreLengthsOf};
ghost use Rattle.dr_write.specs.Chunks.{header_for};

use crate::counting::{count_of, signed_of};
use dr_levels::{Levels, Triplets, ValuesRef};
use dr_memory::NoMemory;
use dr_meta::{DataPage, DataPageV2, PageHead};
use dr_page::{LevelLengths, PageForm};

/// The type of a data page of the first version.
const DATA_PAGE: i64 = 0;

/// The type of a data page of the second version.
const DATA_PAGE_V2: i64 = 3;

/// The encoding of values.
pub(crate) const PLAIN: i64 = 0;

/// The encoding of levels.
pub(crate) const RLE: i64 = 3;

/// The header of a page of this form of these triplets, whose level parts are so long, with a body of so many bytes.
///
/// Errors: want of memory alone.
pub(crate) fn page_head(
    form: PageForm,
    triplets: Triplets<'_>,
    lengths: LevelLengths,
    size: usize,
) -> Result<PageHead, NoMemory>
    ensures { (max_repetition : ℕ) → AreLengthsOf max_repetition triplets.entry lengths
        → IfOk result (λ h. page_view h ≡ header_for (page_form_view form) max_repetition triplets.entry size) }
{
    match form {
        PageForm::V1 => head_v1(triplets, size),
        PageForm::V2 => head_v2(triplets, lengths, size),
    }
}

/// That of a V1 page.
fn head_v1(triplets: Triplets<'_>, size: usize) -> Result<PageHead, NoMemory>
    ensures { IfOk result (λ h. page_view h ≡ header_of_page data_page_v1 0 0 (triplets_view triplets.entry) size) }
{
    let values = count_of(triplets.len() as u64)?;
    let size = count_of(size as u64)?;
    Ok(PageHead {
        kind: DATA_PAGE,
        uncompressed_size: Some(size.get() as i64),
        compressed_size: size,
        data_page: Some(DataPage {
            values,
            encoding: PLAIN,
            definition_encoding: RLE,
            repetition_encoding: RLE,
        }),
        dictionary_page: None,
        data_page_v2: None,
    })
}

/// That of a V2 page.
fn head_v2(triplets: Triplets<'_>, lengths: LevelLengths, size: usize) -> Result<PageHead, NoMemory>
    ensures { (max_repetition : ℕ) → AreLengthsOf max_repetition triplets.entry lengths
        → IfOk result (λ h. page_view h ≡ header_for data_page_v2 max_repetition triplets.entry size) }
{
    let size = count_of(size as u64)?;
    let values = count_of(triplets.len() as u64)?;
    let nulls = signed_of(count_nulls(triplets))?;
    let rows = signed_of(count_starts(triplets.levels()))?;
    let definition_bytes = count_of(lengths.definitions as u64)?;
    let repetition_bytes = count_of(lengths.repetitions as u64)?;
    Ok(PageHead {
        kind: DATA_PAGE_V2,
        uncompressed_size: Some(size.get() as i64),
        compressed_size: size,
        data_page: None,
        dictionary_page: None,
        data_page_v2: Some(DataPageV2 {
            values,
            nulls: Some(nulls),
            rows: Some(rows),
            encoding: PLAIN,
            definition_bytes,
            repetition_bytes,
            compressed: Some(false),
        }),
    })
}

/// How many triplets have no value.
fn count_nulls(triplets: Triplets<'_>) -> usize
    ensures { result ≡ null_count (triplets_view triplets.entry) }
{
    triplets.len() - count_values(triplets.values())
}

/// How many values are lent.
fn count_values(values: ValuesRef<'_>) -> usize
    ensures { result ≡ length (lent_values values.entry) }
{
    match values {
        ValuesRef::Bools(truths) => truths.len(),
        ValuesRef::Integers(numbers) => numbers.len(),
        ValuesRef::Texts { places, .. } => places.len(),
    }
}

/// How many triplets begin a record.
fn count_starts(levels: &[Levels]) -> usize
    ensures { (ts : List Triplet) → map levels_pair levels.now ≡ map triplet_levels ts → result ≡ starts ts }
{
    levels.iter().filter(|level| level.repetition == 0).count()
}
