//! The header of a page, from a tree.

ghost use Rattle.std.specs.Prelude.{option_map};
ghost use Rattle.dr_formats.specs.Metadata as metadata;
ghost use Rattle.dr_formats.specs.Metadata.{where_there, view_data_header, view_dictionary_header, view_data_header_v2};
ghost use Rattle.dr_compact.specs.Views.{tree_view};
ghost use Rattle.dr_meta.specs.Views.{data_page_view, dictionary_page_view, data_page_v2_view, page_view};
ghost use Rattle.dr_meta.specs.Faults.{Gives};

use crate::fault::MetaFault;
use crate::fields::{needed_count32, needed_i32, optional_i32, optional_struct, optional_truth};
use crate::ids::{data_page, data_page_v2, dictionary_page, page_header};
use crate::page::{DataPage, DataPageV2, DictionaryPage, PageHead};
use dr_compact::Tree;

/// The page header that a struct holds. Whichever header structs of a type it has must be complete.
///
/// Errors: the first needed field that is missing or out of range, a struct's own before those of the structs inside
/// it.
pub fn view_page(tree: &Tree<'_>) -> Result<PageHead, MetaFault>
    ensures { Gives page_view (metadata.view_page (tree_view tree.now)) result }
{
    let kind = needed_i32(tree, page_header::KIND)?;
    let compressed_size = needed_count32(tree, page_header::COMPRESSED_SIZE)?;
    let data_page = view_data_page(optional_struct(tree, page_header::DATA_PAGE))?;
    let dictionary = optional_struct(tree, page_header::DICTIONARY_PAGE);
    let dictionary_page = view_dictionary_page(dictionary)?;
    let data_page_v2 = view_data_page_v2(optional_struct(tree, page_header::DATA_PAGE_V2))?;
    Ok(PageHead {
        kind,
        uncompressed_size: optional_i32(tree, page_header::UNCOMPRESSED_SIZE),
        compressed_size,
        data_page,
        dictionary_page,
        data_page_v2,
    })
}

fn view_data_page(tree: Option<&Tree<'_>>) -> Result<Option<DataPage>, MetaFault>
    ensures { Gives (option_map data_page_view)
        (where_there view_data_header (option_map (λ t. tree_view t.now) tree.entry)) result }
{
    let Some(tree) = tree else {
        return Ok(None);
    };
    let values = needed_count32(tree, data_page::VALUES)?;
    let encoding = needed_i32(tree, data_page::ENCODING)?;
    let definition_encoding = needed_i32(tree, data_page::DEFINITION_ENCODING)?;
    let repetition_encoding = needed_i32(tree, data_page::REPETITION_ENCODING)?;
    Ok(Some(DataPage {
        values,
        encoding,
        definition_encoding,
        repetition_encoding,
    }))
}

fn view_dictionary_page(tree: Option<&Tree<'_>>) -> Result<Option<DictionaryPage>, MetaFault>
    ensures { Gives (option_map dictionary_page_view)
        (where_there view_dictionary_header (option_map (λ t. tree_view t.now) tree.entry)) result }
{
    let Some(tree) = tree else {
        return Ok(None);
    };
    let values = needed_count32(tree, dictionary_page::VALUES)?;
    let encoding = needed_i32(tree, dictionary_page::ENCODING)?;
    Ok(Some(DictionaryPage { values, encoding }))
}

fn view_data_page_v2(tree: Option<&Tree<'_>>) -> Result<Option<DataPageV2>, MetaFault>
    ensures { Gives (option_map data_page_v2_view)
        (where_there view_data_header_v2 (option_map (λ t. tree_view t.now) tree.entry)) result }
{
    let Some(tree) = tree else {
        return Ok(None);
    };
    let values = needed_count32(tree, data_page_v2::VALUES)?;
    let encoding = needed_i32(tree, data_page_v2::ENCODING)?;
    let definition_bytes = needed_count32(tree, data_page_v2::DEFINITION_BYTES)?;
    let repetition_bytes = needed_count32(tree, data_page_v2::REPETITION_BYTES)?;
    Ok(Some(DataPageV2 {
        values,
        nulls: optional_i32(tree, data_page_v2::NULLS),
        rows: optional_i32(tree, data_page_v2::ROWS),
        encoding,
        definition_bytes,
        repetition_bytes,
        compressed: optional_truth(tree, data_page_v2::COMPRESSED),
    }))
}
