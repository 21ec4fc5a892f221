//! Shapes of data pages, by their headers.

ghost use Rattle.std.specs.Prelude.{◌≡◌, option_map, IfSome};
ghost use Rattle.dr_meaning.specs.Path.{Leaf};
ghost use Rattle.dr_formats.specs.Chunk.{shape_of_page, shape_of_page_v2};
ghost use Rattle.dr_page.specs.Views.{shape_view};
ghost use Rattle.dr_meta.specs.Views.{data_page_view, data_page_v2_view};
ghost use Rattle.dr_chunk.specs.Shapes.{IsOfLeaf};
ghost use Rattle.dr_chunk.specs.Takers.{IsLeafOf};

use crate::leaf_shape::LeafShape;
use dr_meta::{DataPage, DataPageV2};
use dr_page::{PageForm, Shape};

/// The number of the encoding RLE, that of all levels of a V2 page.
const RLE: i64 = 3;

/// What is known of a V1 page of a leaf before its body, where it has a header of its type.
pub(crate) fn shape_of(leaf: LeafShape, page: Option<DataPage>) -> Option<Shape>
    ensures shape { (l : Leaf) → IsLeafOf l leaf
        → option_map shape_view result ≡ option_map (shape_of_page l) (option_map data_page_view page) }
    ensures leaf { IfSome result (λ s. IsOfLeaf leaf s) }
{
    let Some(page) = page else {
        return None;
    };
    Some(Shape {
        form: PageForm::V1,
        triplets: page.values.get(),
        encoding: page.encoding,
        definition_encoding: page.definition_encoding,
        repetition_encoding: page.repetition_encoding,
        definition_bytes: 0,
        repetition_bytes: 0,
        kind: leaf.kind,
        max_repetition: leaf.max_repetition,
        max_definition: leaf.max_definition,
    })
}

/// And of a V2 page. Its numbers of NULLs and rows aren't looked at, nor whether it says that its values are
/// compressed.
pub(crate) fn shape_of_v2(leaf: LeafShape, page: Option<DataPageV2>) -> Option<Shape>
    ensures shape { (l : Leaf) → IsLeafOf l leaf
        → option_map shape_view result ≡ option_map (shape_of_page_v2 l) (option_map data_page_v2_view page) }
    ensures leaf { IfSome result (λ s. IsOfLeaf leaf s) }
{
    let Some(page) = page else {
        return None;
    };
    Some(Shape {
        form: PageForm::V2,
        triplets: page.values.get(),
        encoding: page.encoding,
        definition_encoding: RLE,
        repetition_encoding: RLE,
        definition_bytes: page.definition_bytes.get(),
        repetition_bytes: page.repetition_bytes.get(),
        kind: leaf.kind,
        max_repetition: leaf.max_repetition,
        max_definition: leaf.max_definition,
    })
}
