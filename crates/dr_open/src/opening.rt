//! The open part of a file's schema. Groups are entered by recursion down to the greatest depth of a path; what is
//! closed is passed without.

ghost use Rattle.std.specs.Prelude.{◌≡◌, ◌≤◌, [], ◌∷◌, ◌++◌, List, ℕ, map, length, Some, option_map, option_and_then, OnOk, IfOk, IfSome, IsSome};
ghost use Rattle.std.specs.Option.{is_some, option_to_list};
ghost use Rattle.dr_formats.specs.FileSchema as file;
ghost use Rattle.dr_meta.specs.Views.{item_view, lent};
ghost use Rattle.dr_nested.specs.Views.{rep_view, shape_view, field_view, fields_view};
ghost use Rattle.dr_nested.specs.SchemaView.{schema_view};
ghost use Rattle.dr_open.specs.Places.{passed, shape_from, element_kind};
ghost use Rattle.dr_open.specs.Opens.{fields_part, shape_part, field_part, named_shape};

use crate::element::{open_kind, repetition};
use crate::names::short_name;
use crate::skipping::elements_below;
use dr_memory::NoMemory;
use dr_meta::{SchemaItem, group_size};
use dr_nested::{Field, GREATEST_DEPTH, MOST_LEAVES, Rep, Schema, Shape};
use std::alloc::{AllocError, Global};
use std::collections::BTreeSet;

/// The name of a schema whose root has none of the right form.
const NAME: &str = "Records";

/// The open part of fields, how many elements they are, and how many leaves may still come.
#[derive(Drop)]
pub(crate) struct OpenedFields {
    pub(crate) fields: Vec<Field>,
    elements: usize,
    left: usize,
}

/// The same of one field behind its element, if something of it is open.
#[derive(Drop)]
pub(crate) struct OpenedField {
    field: Option<Field>,
    elements: usize,
    left: usize,
}

/// The same of an element's shape.
#[derive(Drop)]
pub(crate) struct OpenedShape {
    shape: Option<Shape>,
    elements: usize,
    left: usize,
}

ghost use Rattle.dr_open.specs.OpenViews.{HoldsNames, fields_part_view, field_part_view, shape_part_view};

/// The name of a field, if it is open: of the right form, and none of an earlier field of the group.
fn fresh_name<'a>(
    earlier: &mut BTreeSet<&'a str>,
    name: &'a [u8],
) -> Result<Option<&'a str>, NoMemory>
    ensures fresh { IfOk result (λ o. (names : List (List ℕ)) → HoldsNames earlier.old names → is_some o
        ≡ file.is_open_name names name.now) }
    ensures text { IfOk result (λ o. IfSome o (λ n. n.now ≡ name.now)) }
    ensures names { OnOk result ((names : List (List ℕ)) → HoldsNames earlier.old names
        → HoldsNames earlier.new (name.now ∷ names)) }
{
    match short_name(name) {
        Some(short) => {
            let is_fresh = earlier.insert(short)?;
            Ok(if is_fresh { Some(short) } else { None })
        }
        None => Ok(None),
    }
}

/// A leaf, if it is open and may still come.
fn open_leaf(item: &SchemaItem<'_>, room: usize) -> OpenedShape
    ensures shape { option_map shape_view result.shape
        ≡ (file.open_leaf (element_kind (item_view item.now)) room).shape }
    ensures left { result.left ≡ (file.open_leaf (element_kind (item_view item.now)) room).left }
    ensures elements { result.elements ≡ 0 }
{
    match open_kind(item) {
        Some(kind) if room > 0 => OpenedShape {
            shape: Some(Shape::Leaf(kind)),
            elements: 0,
            left: room - 1,
        },
        _ => OpenedShape {
            shape: None,
            elements: 0,
            left: room,
        },
    }
}

/// Fields as a group, unless there are none.
#[tactic(auto, using(crate::proofs::OpeningLemmas::no_group, crate::proofs::OpeningLemmas::group_of_fields))]
fn as_group(fields: OpenedFields) -> OpenedShape
    ensures shape { option_map shape_view result.shape ≡ file.group_unless_empty (fields_view fields.fields.items) }
    ensures elements { result.elements ≡ fields.elements }
    ensures left { result.left ≡ fields.left }
{
    let OpenedFields {
        fields,
        elements,
        left,
    } = fields;
    let shape = if fields.is_empty() {
        None
    } else {
        Some(Shape::Group(fields))
    };
    OpenedShape {
        shape,
        elements,
        left,
    }
}

/// A shape, if there is one, as that of a field of this name.
fn named(
    alloc: Global,
    name: &str,
    rep: Rep,
    shape: Option<Shape>,
) -> Result<Option<Field>, AllocError>
    ensures { IfOk result (λ f. option_map field_view f
        ≡ named_shape name.now (rep_view rep) (option_map shape_view shape)) }
{
    match shape {
        Some(shape) => {
            let name = String::from_str(alloc, name)?;
            Ok(Some(Field { name, rep, shape }))
        }
        None => Ok(None),
    }
}

/// A field behind others, if there is one.
fn put_field(fields: &mut Vec<Field>, field: Option<Field>) -> Result<(), NoMemory>
    ensures { OnOk result (map field_view fields.new.items
        ≡ map field_view fields.old.items ++ option_to_list (option_map field_view field)) }
{
    if let Some(field) = field {
        fields.push(field)?;
    }
    Ok(())
}

/// The open part of an element's shape, of paths of at most so many parts from its field on, and of at most so many
/// leaves.
#[cycle(opening)]
fn open_shape(
    alloc: Global,
    item: &SchemaItem<'_>,
    behind: &[SchemaItem<'_>],
    depth: usize,
    room: usize,
) -> Result<OpenedShape, NoMemory>
    requires { IsSome (shape_from (item_view item.now) (map item_view behind.now)) }
    ensures part { IfOk result (λ o. shape_part depth room (item_view item.now) (map item_view behind.now)
        ≡ Some (shape_part_view o behind.now)) }
    ensures within { IfOk result (λ o. o.elements ≤ length behind.now) }
{
    if depth == 0 {
        return Ok(OpenedShape {
            shape: None,
            elements: elements_below(item, behind),
            left: room,
        });
    }
    match group_size(item) {
        Some(fields) => Ok(as_group(open_fields(alloc, fields, behind, depth - 1, room)?)),
        None => Ok(open_leaf(item, room)),
    }
}

/// The open part of the field of an element, where its name is open.
#[cycle(opening)]
fn open_field(
    alloc: Global,
    name: Option<&str>,
    rep: Rep,
    item: &SchemaItem<'_>,
    behind: &[SchemaItem<'_>],
    depth: usize,
    room: usize,
) -> Result<OpenedField, NoMemory>
    requires { IsSome (shape_from (item_view item.now) (map item_view behind.now)) }
    ensures part { IfOk result (λ o. field_part (option_map lent name.entry) (rep_view rep) depth room
        (item_view item.now) (map item_view behind.now) ≡ Some (field_part_view o behind.now)) }
    ensures within { IfOk result (λ o. o.elements ≤ length behind.now) }
{
    match name {
        Some(name) => {
            let OpenedShape {
                shape,
                elements,
                left,
            } = open_shape(alloc, item, behind, depth, room)?;
            let field = named(alloc, name, rep, shape)?;
            Ok(OpenedField {
                field,
                elements,
                left,
            })
        }
        None => Ok(OpenedField {
            field: None,
            elements: elements_below(item, behind),
            left: room,
        }),
    }
}

/// The open part of the next so many fields of a group.
#[cycle(opening)]
pub(crate) fn open_fields(
    alloc: Global,
    fields: u64,
    items: &[SchemaItem<'_>],
    depth: usize,
    room: usize,
) -> Result<OpenedFields, NoMemory>
    requires { IsSome (passed fields (map item_view items.now)) }
    ensures part { IfOk result (λ o. fields_part [] depth room fields (map item_view items.now)
        ≡ Some (fields_part_view o items.now)) }
    ensures within { IfOk result (λ o. o.elements ≤ length items.now) }
{
    let mut earlier = BTreeSet::new(alloc);
    let mut opened = Vec::new(alloc);
    let mut elements = 0;
    let mut left = room;
    'fields: for _ in 0..fields {
        let rest = &items[elements..];
        let Some((item, behind)) = rest.split_first() else {
            break;
        };
        let Some(rep) = repetition(item) else {
            break;
        };
        let name = fresh_name(&mut earlier, item.name)?;
        let part = open_field(alloc, name, rep, item, behind, depth, left)?;
        elements += 1 + part.elements;
        left = part.left;
        put_field(&mut opened, part.field)?;
    }
    Ok(OpenedFields {
        fields: opened,
        elements,
        left,
    })
}

/// The open part of a file's schema, whose schema elements these are, as a schema: the first 1,024 open leaves in
/// depth-first order, and the groups that hold one of them, none of them empty; none where no leaf is open. A leaf is
/// open by its type (BOOLEAN, INT32, INT64, BYTE_ARRAY), its converted type (none of DECIMAL, UINT_32, UINT_64, BSON
/// and INTERVAL), the names on its path (a letter or `_` and then letters, digits and `_`, at most 64 bytes, each the
/// first of its name in its group), and its depth (at most 32 parts). The schema's name is that of the root, or
/// `Records` where that is no such name.
///
/// The list is gone through once, with a look-up for each name; the recursion is as deep as a path of 32 parts, since
/// what is closed is passed without.
///
/// Errors: want of memory alone.
pub fn open_schema(alloc: Global, items: &[SchemaItem<'_>]) -> Result<Option<Schema>, NoMemory>
    // The elements are one tree, as where `dr_meta::count_leaves` gives a number.
    requires { IsSome (file.file_schema (map item_view items.now)) }
    ensures { IfOk result (λ s. option_map schema_view s
        ≡ option_and_then file.open_schema (file.file_schema (map item_view items.now))) }
{
    let Some((root, rest)) = items.split_first() else {
        return Ok(None);
    };
    let Some(count) = group_size(root) else {
        return Ok(None);
    };
    let fields = open_fields(alloc, count, rest, GREATEST_DEPTH, MOST_LEAVES)?.fields;
    if fields.is_empty() {
        return Ok(None);
    }
    let name = String::from_str(alloc, short_name(root.name).unwrap_or(NAME))?;
    Ok(Some(Schema { name, fields }))
}
