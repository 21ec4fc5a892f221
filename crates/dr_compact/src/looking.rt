//! Looking into trees: fields by their ids, and values as what a type has.

ghost use Rattle.std.specs.Prelude.{◌≡◌, option_map, map};
ghost use Rattle.dr_formats.specs.Compact.{list_item, find_field};
ghost use Rattle.dr_formats.specs.Metadata as metadata;
ghost use Rattle.dr_compact.specs.Views.{item_view, values_view, tree_view, items_from, lent_bytes};

use crate::tree::{Item, Tree, Values};

impl<'a> Tree<'a> {
    /// The value of the field with an id, if there is one: of several the last.
    pub fn find(&self, id: i16) -> Option<&Item<'a>>
        ensures { option_map (λ x. item_view x.now) result ≡ find_field id (tree_view self.now) }
    {
        let mut found = None;
        'fields: for field in &self.fields {
            if field.id == id {
                found = Some(&field.item);
            }
        }
        found
    }
}

impl<'a> Item<'a> {
    /// The truth value, if it is one.
    pub fn as_truth(&self) -> Option<bool>
        ensures { result ≡ metadata.as_truth (item_view self.now) }
    {
        match self {
            Item::Truth(truth) => Some(*truth),
            _ => None,
        }
    }

    /// The number, if it is of the type i32.
    pub fn as_i32(&self) -> Option<i64>
        ensures { result ≡ metadata.as_i32 (item_view self.now) }
    {
        match self {
            Item::I32(number) => Some(*number),
            _ => None,
        }
    }

    /// The number, if it is of the type i64.
    pub fn as_i64(&self) -> Option<i64>
        ensures { result ≡ metadata.as_i64 (item_view self.now) }
    {
        match self {
            Item::I64(number) => Some(*number),
            _ => None,
        }
    }

    /// The bytes, if it is of the type binary.
    pub fn as_binary(&self) -> Option<&'a [u8]>
        ensures { option_map lent_bytes result ≡ metadata.as_binary (item_view self.now) }
    {
        match self {
            Item::Binary(bytes) => Some(*bytes),
            _ => None,
        }
    }

    /// The struct, if it is one.
    pub fn as_struct(&self) -> Option<&Tree<'a>>
        ensures { option_map (λ t. tree_view t.now) result ≡ metadata.as_struct (item_view self.now) }
    {
        match self {
            Item::Struct(tree) => Some(tree),
            _ => None,
        }
    }

    /// The structs, if it is a list of them.
    pub fn as_structs(&self) -> Option<&[Tree<'a>]>
        ensures { option_map (λ ts. map tree_view ts.now) result ≡ metadata.as_structs (item_view self.now) }
    {
        match self {
            Item::List(values) => structs_of(values),
            _ => None,
        }
    }

    /// The numbers, if it is a list of the type i32.
    pub fn as_numbers(&self) -> Option<&[i64]>
        ensures { option_map (λ ns. ns.now) result ≡ metadata.as_numbers (item_view self.now) }
    {
        match self {
            Item::List(values) => numbers_of(values),
            _ => None,
        }
    }

    /// The bytes of each, if it is a list of the type binary.
    pub fn as_names(&self) -> Option<&[&'a [u8]]>
        ensures { option_map (λ ns. map lent_bytes ns.now) result ≡ metadata.as_names (item_view self.now) }
    {
        match self {
            Item::List(values) => names_of(values),
            _ => None,
        }
    }
}

/// The values of a list, if they are structs.
fn structs_of<'t, 'a>(values: &'t Values<'a>) -> Option<&'t [Tree<'a>]>
    ensures { option_map (λ ts. map tree_view ts.now) result
        ≡ metadata.as_structs (list_item (values_view values.now).element
        (items_from (values_view values.now).values)) }
{
    match values {
        Values::Structs(structs) => Some(structs.as_slice()),
        _ => None,
    }
}

/// The values of a list, if they are of the type i32.
fn numbers_of<'t, 'a>(values: &'t Values<'a>) -> Option<&'t [i64]>
    ensures { option_map (λ ns. ns.now) result
        ≡ metadata.as_numbers (list_item (values_view values.now).element
        (items_from (values_view values.now).values)) }
{
    match values {
        Values::I32s(numbers) => Some(numbers.as_slice()),
        _ => None,
    }
}

/// The values of a list, if they are of the type binary.
fn names_of<'t, 'a>(values: &'t Values<'a>) -> Option<&'t [&'a [u8]]>
    ensures { option_map (λ ns. map lent_bytes ns.now) result
        ≡ metadata.as_names (list_item (values_view values.now).element (items_from (values_view values.now).values)) }
{
    match values {
        Values::Binaries(names) => Some(names.as_slice()),
        _ => None,
    }
}
