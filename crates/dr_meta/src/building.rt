//! Fields put behind one another.

ghost use Rattle.std.specs.Prelude.{◌≡◌, pos, map, option_map, IfOk, OnOk};
ghost use Rattle.dr_formats.specs.Compact.{Struct, struct_field, struct_item, list_item, i32_type, binary_type, i32_item, binary_item, truth_item};
ghost use Rattle.dr_formats.specs.Metadata.{with_field, with_i32, with_i64, count_i32, count_i64, items_of, structs};
ghost use Rattle.dr_compact.specs.Views.{field_view, item_view, tree_view, struct_onto};
ghost use Rattle.dr_meta.specs.Views.{lent, lent_names};

use crate::count::Count;
use dr_compact::{Field, Item, Tree, Values};
use dr_memory::NoMemory;
use std::alloc::{AllocError, Global};

pub(crate) fn put<'a>(fields: &mut Vec<Field<'a>>, id: u8, item: Item<'a>) -> Result<(), NoMemory>
    ensures { OnOk result ((rest : Struct) → struct_onto (map field_view (fields.new).items) rest
        ≡ struct_onto (map field_view (fields.old).items) (struct_field (pos id) (item_view item.entry) rest)) }
{
    fields.push(Field {
        id: i16::from(id),
        item,
    })?;
    Ok(())
}

pub(crate) fn put_i32<'a>(fields: &mut Vec<Field<'a>>, id: u8, number: i64) -> Result<(), NoMemory>
    ensures { OnOk result ((rest : Struct) → struct_onto (map field_view (fields.new).items) rest
        ≡ struct_onto (map field_view (fields.old).items) (struct_field (pos id) (i32_item number) rest)) }
{
    put(fields, id, Item::I32(number))
}

pub(crate) fn put_count32<'a>(
    fields: &mut Vec<Field<'a>>,
    id: u8,
    count: Count,
) -> Result<(), NoMemory>
    ensures { OnOk result ((rest : Struct) → struct_onto (map field_view (fields.new).items) rest
        ≡ struct_onto (map field_view (fields.old).items) (count_i32 id count.number rest)) }
{
    put(fields, id, Item::I32(count.get() as i64))
}

pub(crate) fn put_count64<'a>(
    fields: &mut Vec<Field<'a>>,
    id: u8,
    count: Count,
) -> Result<(), NoMemory>
    ensures { OnOk result ((rest : Struct) → struct_onto (map field_view (fields.new).items) rest
        ≡ struct_onto (map field_view (fields.old).items) (count_i64 id count.number rest)) }
{
    put(fields, id, Item::I64(count.get() as i64))
}

// ---- fields that need not be there

pub(crate) fn put_some_i32<'a>(
    fields: &mut Vec<Field<'a>>,
    id: u8,
    number: Option<i64>,
) -> Result<(), NoMemory>
    ensures { OnOk result ((rest : Struct) → struct_onto (map field_view (fields.new).items) rest
        ≡ struct_onto (map field_view (fields.old).items) (with_i32 id number rest)) }
{
    match number {
        Some(number) => put(fields, id, Item::I32(number)),
        None => Ok(()),
    }
}

pub(crate) fn put_some_i64<'a>(
    fields: &mut Vec<Field<'a>>,
    id: u8,
    number: Option<i64>,
) -> Result<(), NoMemory>
    ensures { OnOk result ((rest : Struct) → struct_onto (map field_view (fields.new).items) rest
        ≡ struct_onto (map field_view (fields.old).items) (with_i64 id number rest)) }
{
    match number {
        Some(number) => put(fields, id, Item::I64(number)),
        None => Ok(()),
    }
}

pub(crate) fn put_some_truth<'a>(
    fields: &mut Vec<Field<'a>>,
    id: u8,
    truth: Option<bool>,
) -> Result<(), NoMemory>
    ensures { OnOk result ((rest : Struct) → struct_onto (map field_view (fields.new).items) rest
        ≡ struct_onto (map field_view (fields.old).items) (with_field id truth_item truth rest)) }
{
    match truth {
        Some(truth) => put(fields, id, Item::Truth(truth)),
        None => Ok(()),
    }
}

pub(crate) fn put_some_binary<'a>(
    fields: &mut Vec<Field<'a>>,
    id: u8,
    bytes: Option<&'a [u8]>,
) -> Result<(), NoMemory>
    ensures { OnOk result ((rest : Struct) → struct_onto (map field_view (fields.new).items) rest
        ≡ struct_onto (map field_view (fields.old).items)
        (with_field id binary_item (option_map lent bytes.entry) rest)) }
{
    match bytes {
        Some(bytes) => put(fields, id, Item::Binary(bytes)),
        None => Ok(()),
    }
}

/// A copy of items.
fn copied<T: Copy + Drop>(alloc: Global, items: &[T]) -> Result<Vec<T>, AllocError>
    ensures { IfOk result (λ v. v.items ≡ items.now) }
{
    items.iter().copied().collect(alloc)
}

pub(crate) fn put_some_numbers<'a>(
    alloc: Global,
    fields: &mut Vec<Field<'a>>,
    id: u8,
    numbers: Option<&[i64]>,
) -> Result<(), NoMemory>
    ensures { OnOk result ((rest : Struct) → struct_onto (map field_view (fields.new).items) rest
        ≡ struct_onto (map field_view (fields.old).items)
        (with_field id (λ es. list_item i32_type (items_of i32_item es)) (option_map lent numbers.entry) rest)) }
{
    match numbers {
        Some(numbers) => put(
            fields,
            id,
            Item::List(Values::I32s(copied(alloc, numbers)?)),
        ),
        None => Ok(()),
    }
}

pub(crate) fn put_some_names<'a>(
    alloc: Global,
    fields: &mut Vec<Field<'a>>,
    id: u8,
    names: Option<&[&'a [u8]]>,
) -> Result<(), NoMemory>
    ensures { OnOk result ((rest : Struct) → struct_onto (map field_view (fields.new).items) rest
        ≡ struct_onto (map field_view (fields.old).items)
        (with_field id (λ ns. list_item binary_type (items_of binary_item ns))
        (option_map lent_names names.entry) rest)) }
{
    match names {
        Some(names) => put(
            fields,
            id,
            Item::List(Values::Binaries(copied(alloc, names)?)),
        ),
        None => Ok(()),
    }
}

pub(crate) fn put_some_struct<'a>(
    fields: &mut Vec<Field<'a>>,
    id: u8,
    tree: Option<Tree<'a>>,
) -> Result<(), NoMemory>
    ensures { OnOk result ((rest : Struct) → struct_onto (map field_view (fields.new).items) rest
        ≡ struct_onto (map field_view (fields.old).items)
        (with_field id struct_item (option_map tree_view tree.entry) rest)) }
{
    match tree {
        Some(tree) => put(fields, id, Item::Struct(tree)),
        None => Ok(()),
    }
}

pub(crate) fn put_structs<'a>(
    fields: &mut Vec<Field<'a>>,
    id: u8,
    trees: Vec<Tree<'a>>,
) -> Result<(), NoMemory>
    ensures { OnOk result ((rest : Struct) → struct_onto (map field_view (fields.new).items) rest
        ≡ struct_onto (map field_view (fields.old).items)
        (struct_field (pos id) (structs (λ s. s) (map tree_view (trees.entry).items)) rest)) }
{
    put(fields, id, Item::List(Values::Structs(trees)))
}
