//! Where the chunks of a schema's leaves stand in the row groups of a file.

ghost use Rattle.std.specs.Prelude.{◌≡◌, map, false, IsSome, IfOk, IfSome, IfNone};
ghost use Rattle.std.specs.List.{list_all};
ghost use Rattle.dr_formats.specs.FileSchema.{file_schema};
ghost use Rattle.dr_formats.specs.Lacking.{has_source};
ghost use Rattle.dr_meta.specs.Views.{item_view, group_view};
ghost use Rattle.dr_nested.specs.PathView.{path_view};
ghost use Rattle.dr_open.specs.Sources.{source_in_file};
ghost use Rattle.dr_file.specs.Groups.{are_triplets, is_uncompressed_at};
ghost use Rattle.dr_file.specs.Sources.{AreSources, places_read};

use crate::groups::{are_uncompressed, triplets_fit};
use dr_memory::NoMemory;
use dr_meta::{GroupMeta, SchemaItem};
use dr_nested::Path;
use dr_open::{LeafSource, leaf_source};
use std::alloc::Global;

/// The sources of these leaves in a file; none where one has none.
///
/// Errors: want of memory alone.
pub(crate) fn find_sources(
    alloc: Global,
    items: &[SchemaItem<'_>],
    fields: &[Path],
) -> Result<Option<Vec<LeafSource>>, NoMemory>
    requires { IsSome (file_schema (map item_view items.now)) }
    ensures found { IfOk result (λ o. IfSome o
        (λ v. AreSources (file_schema (map item_view items.now)) (map path_view fields.now) v.items)) }
    ensures none { IfOk result (λ o. IfNone o
        (list_all (λ l. has_source (source_in_file l (file_schema (map item_view items.now)))) (map path_view
        fields.now)
        ≡ false)) }
{
    let mut sources = Vec::with_capacity(alloc, fields.len())?;
    'fields: for field in fields {
        match leaf_source(alloc, items, field)? {
            Some(source) => sources.push(source)?,
            None => return Ok(None),
        }
    }
    Ok(Some(sources))
}

/// The places of the chunks that leaves with these sources have.
///
/// Errors: want of memory alone.
pub(crate) fn places_of(alloc: Global, sources: &[LeafSource]) -> Result<Vec<usize>, NoMemory>
    ensures { IfOk result (λ v. v.items ≡ places_read sources.now) }
{
    let mut places = Vec::with_capacity(alloc, sources.len())?;
    'sources: for source in sources {
        match source {
            LeafSource::Own(place) => places.push(*place)?,
            LeafSource::Nowhere => {}
            LeafSource::Other(other) => places.push(other.place)?,
        }
    }
    Ok(places)
}

/// Whether no chunk at these places is compressed.
pub(crate) fn all_uncompressed(groups: &[GroupMeta<'_, '_>], places: &[usize]) -> bool
    ensures { result ≡ list_all (λ i. list_all (is_uncompressed_at i) (map group_view groups.now)) places.now }
{
    'places: for place in places {
        if !are_uncompressed(groups, *place) {
            return false;
        }
    }
    true
}

/// Whether at each of these places the chunks have not too many triplets together.
pub(crate) fn all_triplets_fit(groups: &[GroupMeta<'_, '_>], places: &[usize]) -> bool
    ensures { result ≡ list_all (λ i. are_triplets (map group_view groups.now) i) places.now }
{
    'places: for place in places {
        if !triplets_fit(groups, *place) {
            return false;
        }
    }
    true
}
