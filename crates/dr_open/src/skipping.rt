//! Fields passed in the list of schema elements, with all that is below them.

ghost use Rattle.std.specs.Prelude.{◌≡◌, ◌<◌, ◌≤◌, ◌+◌, map, drop, length, Some, None, IsSome, IfSome, IfNone};
ghost use Rattle.dr_formats.specs.FileSchema.{repetition_from};
ghost use Rattle.dr_meta.specs.Views.{item_view};
ghost use Rattle.dr_open.specs.Places.{passed, HasNoLeaf, HasLeavesIn, shape_from, behind_shape};
ghost use Rattle.dr_open.specs.Sources.{first_named, field_from};
ghost use Rattle.dr_open.specs.Skips.{skip_view};

use dr_meta::{SchemaItem, group_size};

/// Fields that were passed: how many leaves they have, and how many elements they are.
#[derive(Clone, Copy)]
pub(crate) struct Skipped {
    pub leaves: usize,
    pub elements: usize,
}

/// A field of a group: how many leaves of the group stand before it, its element, and those behind that.
#[derive(Clone, Copy)]
pub(crate) struct Found<'t, 'a> {
    pub before: usize,
    pub item: &'t SchemaItem<'a>,
    pub behind: &'t [SchemaItem<'a>],
}

/// Passes the next so many fields. How many fields are still to be passed is counted; no group is entered by recursion.
pub(crate) fn skip_fields(fields: u64, items: &[SchemaItem<'_>]) -> Skipped
    requires { IsSome (passed fields (map item_view items.now)) }
    ensures passed { passed fields (map item_view items.now) ≡ Some (skip_view result items.now) }
    ensures within { result.elements ≤ length items.now }
{
    let mut left = fields;
    let mut leaves = 0;
    'items: for (elements, item) in items.iter().enumerate() {
        if left == 0 {
            return Skipped { leaves, elements };
        }
        left -= 1;
        match group_size(item) {
            Some(inner) => left += inner,
            None => leaves += 1,
        }
    }
    let elements = items.len();
    Skipped { leaves, elements }
}

/// How many elements are below an element: those of its fields, where it is a group.
pub(crate) fn elements_below(item: &SchemaItem<'_>, behind: &[SchemaItem<'_>]) -> usize
    requires { IsSome (shape_from (item_view item.now) (map item_view behind.now)) }
    ensures behind { behind_shape (item_view item.now) (map item_view behind.now)
        ≡ Some (map item_view (drop result behind.now)) }
    ensures within { result ≤ length behind.now }
{
    match group_size(item) {
        Some(fields) => skip_fields(fields, behind).elements,
        None => 0,
    }
}

/// The first field of a name among the next so many fields of a group.
pub(crate) fn field_named<'t, 'a>(
    fields: u64,
    items: &'t [SchemaItem<'a>],
    name: &[u8],
) -> Option<Found<'t, 'a>>
    requires { IsSome (passed fields (map item_view items.now)) }

    ensures none { IfNone result (HasNoLeaf name.now fields (map item_view items.now)) }
    ensures missing { IfNone result (first_named name.now fields (map item_view items.now) ≡ None) }
    ensures some { IfSome result (λ f. HasLeavesIn name.now fields (map item_view items.now) f.before
        (item_view f.item.now) (map item_view f.behind.now)) }
    ensures first { IfSome result (λ f. first_named name.now fields (map item_view items.now)
        ≡ field_from (item_view f.item.now) (map item_view f.behind.now)) }
    ensures name { IfSome result (λ f. f.item.now.name.now ≡ name.now) }
    ensures repetition { IfSome result (λ f. IsSome (repetition_from f.item.now.repetition)) }
    ensures shape { IfSome result (λ f. IsSome (shape_from (item_view f.item.now) (map item_view f.behind.now))) }
    ensures within { IfSome result (λ f. f.before + length f.behind.now < length items.now) }
{
    let mut before = 0;
    let mut at = 0;
    'fields: for _ in 0..fields {
        let rest = &items[at..];
        let (item, behind) = rest.split_first()?;
        if name == item.name {
            return Some(Found {
                before,
                item,
                behind,
            });
        }
        let field = skip_fields(1, rest);
        before += field.leaves;
        at += field.elements;
    }
    None
}
