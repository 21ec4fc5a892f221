//! Writing structs.

ghost use Rattle.std.specs.Prelude.{◌≡◌, ◌++◌, ◌<◌, length, drop, OnOk, OnErr};
ghost use Rattle.dr_formats.specs.Compact.{struct_bytes, item_bytes, in_field};
ghost use Rattle.dr_compact.specs.Views.{item_view, values_view, map_view, tree_view};
ghost use Rattle.dr_compact.specs.Writes.{Writes, first_bytes, values_bytes};

use crate::appending::{
    append, append_binary, append_field_header, append_list_header, append_number, append_signed,
};
use crate::tree::{Item, Map, Tree, Values};
use crate::values::{count_of, element_of, type_of_item};
use dr_memory::NoMemory;

/// Appends the bytes of a struct: the shortest spellings of numbers, and the short form of a field's header where it
/// fits. Nesting is not looked at: a tree in which a struct, list, set or map stands inside 32 others is not read back.
///
/// Errors: want of memory alone; the bytes are then as they were.
pub fn write_struct(tree: &Tree<'_>, out: &mut Vec<u8>) -> Result<(), NoMemory>
    ensures written { OnOk result ((out.new).items ≡ (out.old).items ++ struct_bytes (tree_view tree.now)) }
    ensures stays { OnErr result ((out.new).items ≡ (out.old).items) }
{
    let start = out.len();
    let written = write_tree(tree, out);
    if written.is_err() {
        out.truncate(start);
    }
    written
}

/// Appends the fields of a struct and its end.
#[cycle(writing)]
fn write_tree(tree: &Tree<'_>, out: &mut Vec<u8>) -> Result<(), NoMemory>
    ensures { Writes (struct_bytes (tree_view tree.now)) (out.old).items (out.new).items result }
{
    let mut last = 0;
    'fields: for field in &tree.fields {
        append_field_header(last, field.id, type_of_item(&field.item), out)?;
        write_field_item(&field.item, out)?;
        last = field.id;
    }
    append(&[0], out)
}

/// Appends the value of a field: nothing for a truth value, which its type tells.
#[cycle(writing)]
fn write_field_item(item: &Item<'_>, out: &mut Vec<u8>) -> Result<(), NoMemory>
    ensures { Writes (in_field (item_view item.now) (item_bytes (item_view item.now))) (out.old).items
        (out.new).items result }
{
    match item {
        Item::Truth(_) => Ok(()),
        Item::Byte(byte) => append(&[*byte], out),
        Item::I16(number) => append_signed(*number, out),
        Item::I32(number) => append_signed(*number, out),
        Item::I64(number) => append_signed(*number, out),
        Item::Double(bytes) => append(bytes, out),
        Item::Binary(bytes) => append_binary(bytes, out),
        Item::List(values) => write_values(values, out),
        Item::Set(values) => write_values(values, out),
        Item::Map(map) => write_map(map, out),
        Item::Struct(tree) => write_tree(tree, out),
    }
}

/// Appends the header of a list or set and its values.
#[cycle(writing)]
fn write_values(values: &Values<'_>, out: &mut Vec<u8>) -> Result<(), NoMemory>
    ensures { Writes (values_bytes (values_view values.now)) (out.old).items (out.new).items result }
{
    let count = count_of(values);
    append_list_header(count, element_of(values), out)?;
    'elements: for index in 0..count {
        write_element(values, index, out)?;
    }
    Ok(())
}

/// Appends a map.
#[cycle(writing)]
fn write_map(map: &Map<'_>, out: &mut Vec<u8>) -> Result<(), NoMemory>
    ensures { Writes (item_bytes (map_view map.now)) (out.old).items (out.new).items result }
{
    let count = count_of(&map.keys).min(count_of(&map.values));
    append_number(count as u64, out)?;
    if count == 0 {
        return Ok(());
    }
    let types = element_of(&map.keys).number() * 16 + element_of(&map.values).number();
    append(&[types], out)?;
    'pairs: for index in 0..count {
        write_element(&map.keys, index, out)?;
        write_element(&map.values, index, out)?;
    }
    Ok(())
}

/// Appends the value at a place.
#[cycle(writing)]
fn write_element(values: &Values<'_>, place: usize, out: &mut Vec<u8>) -> Result<(), NoMemory>
    requires { place < length (values_view values.now).values }
    ensures { Writes (first_bytes (drop place (values_view values.now).values)) (out.old).items (out.new).items result }
{
    match values {
        Values::Truths(_, truths) => append(&[u8::from(truths[place])], out),
        Values::Bytes(bytes) => append(&[bytes[place]], out),
        Values::I16s(numbers) => append_signed(numbers[place], out),
        Values::I32s(numbers) => append_signed(numbers[place], out),
        Values::I64s(numbers) => append_signed(numbers[place], out),
        Values::Doubles(doubles) => append(&doubles[place], out),
        Values::Binaries(binaries) => append_binary(binaries[place], out),
        Values::Lists(lists) => write_values(&lists[place], out),
        Values::Sets(sets) => write_values(&sets[place], out),
        Values::Maps(maps) => write_map(&maps[place], out),
        Values::Structs(structs) => write_tree(&structs[place], out),
    }
}
