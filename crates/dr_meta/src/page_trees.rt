//! Trees of page headers.

ghost use Rattle.std.specs.Prelude.{◌≡◌, option_map, IfOk};
ghost use Rattle.dr_formats.specs.Metadata.{data_header_tree, dictionary_header_tree, data_header_v2_tree, page_tree};
ghost use Rattle.dr_compact.specs.Views.{tree_view};
ghost use Rattle.dr_meta.specs.Views.{data_page_view, dictionary_page_view, data_page_v2_view, page_view};

use crate::building::{put_count32, put_i32, put_some_i32, put_some_struct, put_some_truth};
use crate::ids::{data_page, data_page_v2, dictionary_page, page_header};
use crate::page::{DataPage, DataPageV2, DictionaryPage, PageHead};
use dr_compact::Tree;
use dr_memory::NoMemory;
use std::alloc::Global;

/// The struct of a page header: its fields in order of their ids.
///
/// Errors: want of memory alone.
pub fn tree_of_page(alloc: Global, head: &PageHead) -> Result<Tree<'static>, NoMemory>
    ensures { IfOk result (λ t. tree_view t ≡ page_tree (page_view head.now)) }
{
    let mut fields = Vec::new(alloc);
    put_i32(&mut fields, page_header::KIND, head.kind)?;
    put_some_i32(
        &mut fields,
        page_header::UNCOMPRESSED_SIZE,
        head.uncompressed_size,
    )?;
    put_count32(
        &mut fields,
        page_header::COMPRESSED_SIZE,
        head.compressed_size,
    )?;
    let data_page = tree_of_data_page(alloc, head.data_page)?;
    put_some_struct(&mut fields, page_header::DATA_PAGE, data_page)?;
    let dictionary_page = tree_of_dictionary_page(alloc, head.dictionary_page)?;
    put_some_struct(&mut fields, page_header::DICTIONARY_PAGE, dictionary_page)?;
    let data_page_v2 = tree_of_data_page_v2(alloc, head.data_page_v2)?;
    put_some_struct(&mut fields, page_header::DATA_PAGE_V2, data_page_v2)?;
    Ok(Tree { fields })
}

fn tree_of_data_page(
    alloc: Global,
    page: Option<DataPage>,
) -> Result<Option<Tree<'static>>, NoMemory>
    ensures { IfOk result (λ o. option_map tree_view o ≡ option_map (λ p. data_header_tree (data_page_view p)) page) }
{
    let Some(page) = page else {
        return Ok(None);
    };
    let mut fields = Vec::new(alloc);
    put_count32(&mut fields, data_page::VALUES, page.values)?;
    put_i32(&mut fields, data_page::ENCODING, page.encoding)?;
    put_i32(
        &mut fields,
        data_page::DEFINITION_ENCODING,
        page.definition_encoding,
    )?;
    put_i32(
        &mut fields,
        data_page::REPETITION_ENCODING,
        page.repetition_encoding,
    )?;
    Ok(Some(Tree { fields }))
}

fn tree_of_dictionary_page(
    alloc: Global,
    page: Option<DictionaryPage>,
) -> Result<Option<Tree<'static>>, NoMemory>
    ensures { IfOk result (λ o. option_map tree_view o
        ≡ option_map (λ p. dictionary_header_tree (dictionary_page_view p)) page) }
{
    let Some(page) = page else {
        return Ok(None);
    };
    let mut fields = Vec::new(alloc);
    put_count32(&mut fields, dictionary_page::VALUES, page.values)?;
    put_i32(&mut fields, dictionary_page::ENCODING, page.encoding)?;
    Ok(Some(Tree { fields }))
}

fn tree_of_data_page_v2(
    alloc: Global,
    page: Option<DataPageV2>,
) -> Result<Option<Tree<'static>>, NoMemory>
    ensures { IfOk result (λ o. option_map tree_view o
        ≡ option_map (λ p. data_header_v2_tree (data_page_v2_view p)) page) }
{
    let Some(page) = page else {
        return Ok(None);
    };
    let mut fields = Vec::new(alloc);
    put_count32(&mut fields, data_page_v2::VALUES, page.values)?;
    put_some_i32(&mut fields, data_page_v2::NULLS, page.nulls)?;
    put_some_i32(&mut fields, data_page_v2::ROWS, page.rows)?;
    put_i32(&mut fields, data_page_v2::ENCODING, page.encoding)?;
    put_count32(
        &mut fields,
        data_page_v2::DEFINITION_BYTES,
        page.definition_bytes,
    )?;
    put_count32(
        &mut fields,
        data_page_v2::REPETITION_BYTES,
        page.repetition_bytes,
    )?;
    put_some_truth(&mut fields, data_page_v2::COMPRESSED, page.compressed)?;
    Ok(Some(Tree { fields }))
}
