//! Reading structs.

ghost use Rattle.std.specs.Prelude.{◌≡◌, ◌≤◌, ◌++◌, ◌∷◌, [], ℤ, length, drop, suc, Err, IfOk, IfErr};
ghost use Rattle.dr_formats.specs.Reading.{got};
ghost use Rattle.dr_formats.specs.Compact as compact;
ghost use Rattle.dr_formats.specs.Compact.{value_of, field_value, signed_varint};
ghost use Rattle.dr_bytes.specs.Cutting.{left};
ghost use Rattle.dr_compact.specs.Reads.{Reads, IsFaultOf};
ghost use Rattle.dr_compact.specs.declared.fault.CompactFault.{CompactFault};
ghost use Rattle.dr_compact.specs.Steps.{elements, map_inside, struct_inside, joined};
ghost use Rattle.dr_compact.specs.Types.{type_view};
ghost use Rattle.dr_compact.specs.Views.{item_view, values_view, elements_view, map_view, tree_view};

use crate::fault::CompactFault;
use crate::headers::{field_header, key_and_value, list_header};
use crate::numbers::{next_binary, next_byte, next_double, next_number, next_signed, next_truth};
use crate::thrift_type::ThriftType;
use crate::tree::{Field, Item, Map, Tree, Values};
use crate::values::no_values;
use dr_bytes::Cut;
use std::alloc::Global;

/// How many structs, lists, sets and maps may stand in one another.
pub const GREATEST_NESTING: u32 = 32;

/// The struct with which bytes begin, and the number of bytes that spell it.
///
/// Errors: no front of the bytes spells a struct; a struct, list, set or map stands inside 32 others; whichever comes
/// first. Want of memory.
pub fn read_struct<'a>(alloc: Global, bytes: &'a [u8]) -> Result<(Tree<'a>, usize), CompactFault>
    ensures read { IfOk result (λ r. compact.read_struct bytes.now ≡ got (tree_view r.0) (drop r.1 bytes.now)) }
    ensures within { IfOk result (λ r. r.1 ≤ length bytes.now) }
    ensures fault { IfErr result (λ e. IsFaultOf e (compact.read_struct bytes.now)) }
{
    let mut cut = Cut::new(bytes);
    let tree = read_tree(alloc, &mut cut, GREATEST_NESTING)?;
    Ok((tree, bytes.len() - cut.rest().len()))
}

/// How many may still stand in one another inside one more.
///
/// Errors: none may.
fn below(depth: u32) -> Result<u32, CompactFault>
    ensures fewer { IfOk result (λ n. depth ≡ suc n) }
    ensures none { IfErr result (λ e. (e ≡ CompactFault.TooDeep) × (depth ≡ 0)) }
{
    depth.checked_sub(1).ok_or(CompactFault::TooDeep)
}

/// The fields of a struct, in which so many may stand in one another.
#[cycle(reading)]
fn read_tree<'a>(alloc: Global, cut: &mut Cut<'a>, depth: u32) -> Result<Tree<'a>, CompactFault>
    ensures { Reads tree_view (struct_inside depth (left cut.old)) (left cut.new) result }
{
    let inside = below(depth)?;
    let mut fields = Vec::new(alloc);
    let mut last = 0;
    'fields: for _ in 0..cut.rest().len() {
        match field_header(cut, last)? {
            None => return Ok(Tree { fields }),
            Some((id, kind)) => {
                let item = read_field_item(alloc, cut, inside, kind)?;
                fields.push(Field { id, item })?;
                last = id;
            }
        }
    }
    Err(CompactFault::Malformed)
}

/// The value of a field of a type.
#[cycle(reading)]
fn read_field_item<'a>(
    alloc: Global,
    cut: &mut Cut<'a>,
    depth: u32,
    kind: ThriftType,
) -> Result<Item<'a>, CompactFault>
    ensures { Reads item_view (field_value (value_of depth) (type_view kind) (left cut.old)) (left cut.new) result }
{
    match kind {
        ThriftType::True => Ok(Item::Truth(true)),
        ThriftType::False => Ok(Item::Truth(false)),
        ThriftType::Byte => Ok(Item::Byte(next_byte(cut)?)),
        ThriftType::I16 => Ok(Item::I16(next_signed(cut)?)),
        ThriftType::I32 => Ok(Item::I32(next_signed(cut)?)),
        ThriftType::I64 => Ok(Item::I64(next_signed(cut)?)),
        ThriftType::Double => Ok(Item::Double(next_double(cut)?)),
        ThriftType::Binary => Ok(Item::Binary(next_binary(cut)?)),
        ThriftType::List => Ok(Item::List(read_elements(alloc, cut, depth)?)),
        ThriftType::Set => Ok(Item::Set(read_elements(alloc, cut, depth)?)),
        ThriftType::Map => {
            let map = read_map(alloc, cut, depth)?;
            Ok(Item::Map(Box::new(alloc, map)?))
        }
        ThriftType::Struct => Ok(Item::Struct(read_tree(alloc, cut, depth)?)),
    }
}

/// The values of a list or set, behind their header.
#[cycle(reading)]
fn read_elements<'a>(
    alloc: Global,
    cut: &mut Cut<'a>,
    depth: u32,
) -> Result<Values<'a>, CompactFault>
    ensures { Reads elements_view (elements depth (left cut.old)) (left cut.new) result }
{
    let inside = below(depth)?;
    let (size, element) = list_header(cut)?;
    let mut values = no_values(alloc, element);
    'elements: for _ in 0..size {
        values = read_element(alloc, cut, inside, values)?;
    }
    Ok(values)
}

/// A map, behind its type.
#[cycle(reading)]
fn read_map<'a>(alloc: Global, cut: &mut Cut<'a>, depth: u32) -> Result<Map<'a>, CompactFault>
    ensures { Reads map_view (map_inside depth (left cut.old)) (left cut.new) result }
{
    let inside = below(depth)?;
    let size = next_number(cut)?;
    if size == 0 {
        let keys = no_values(alloc, ThriftType::True);
        let values = no_values(alloc, ThriftType::True);
        return Ok(Map { keys, values });
    }
    let (key, value) = key_and_value(cut)?;
    let mut keys = no_values(alloc, key);
    let mut values = no_values(alloc, value);
    'pairs: for _ in 0..size {
        keys = read_element(alloc, cut, inside, keys)?;
        values = read_element(alloc, cut, inside, values)?;
    }
    Ok(Map { keys, values })
}

/// Values of a list, a set or a map, with one more read.
#[cycle(reading)]
fn read_element<'a>(
    alloc: Global,
    cut: &mut Cut<'a>,
    depth: u32,
    values: Values<'a>,
) -> Result<Values<'a>, CompactFault>
    ensures { Reads values_view (joined (values_view values.entry)
        (value_of depth (values_view values.entry).element (left cut.old))) (left cut.new) result }
{
    match values {
        Values::Truths(kind, truths) => Ok(Values::Truths(
            kind,
            put_behind(truths, next_truth(cut))?,
        )),
        Values::Bytes(bytes) => Ok(Values::Bytes(put_behind(bytes, next_byte(cut))?)),
        Values::I16s(numbers) => Ok(Values::I16s(put_signed(numbers, cut)?)),
        Values::I32s(numbers) => Ok(Values::I32s(put_signed(numbers, cut)?)),
        Values::I64s(numbers) => Ok(Values::I64s(put_signed(numbers, cut)?)),
        Values::Doubles(doubles) => Ok(Values::Doubles(put_behind(doubles, next_double(cut))?)),
        Values::Binaries(binaries) => {
            Ok(Values::Binaries(put_behind(binaries, next_binary(cut))?))
        }
        Values::Lists(lists) => {
            let list = read_elements(alloc, cut, depth);
            Ok(Values::Lists(put_behind(lists, list)?))
        }
        Values::Sets(sets) => {
            let set = read_elements(alloc, cut, depth);
            Ok(Values::Sets(put_behind(sets, set)?))
        }
        Values::Maps(maps) => {
            let map = read_map(alloc, cut, depth);
            Ok(Values::Maps(put_behind(maps, map)?))
        }
        Values::Structs(structs) => {
            let tree = read_tree(alloc, cut, depth);
            Ok(Values::Structs(put_behind(structs, tree)?))
        }
    }
}

/// Values with one more behind them, if it was read.
///
/// Errors: the fault of reading; want of memory.
fn put_behind<T: Drop>(
    mut values: Vec<T>,
    read: Result<T, CompactFault>,
) -> Result<Vec<T>, CompactFault>
    ensures put { IfOk read (λ x. IfOk result (λ v. v.items ≡ values.items ++ x ∷ [])) }
    ensures want { IfOk read (λ _. IfErr result (λ e. e ≡ CompactFault.NoMemory)) }
    ensures fault { IfErr read (λ e. result ≡ Err e) }
{
    values.push(read?)?;
    Ok(values)
}

/// Numbers with the next signed one behind them.
fn put_signed(mut numbers: Vec<i64>, cut: &mut Cut<'_>) -> Result<Vec<i64>, CompactFault>
    ensures put { IfOk result (λ v. (z : ℤ) × (signed_varint (left cut.old) ≡ got z (left cut.new))
        × (v.items ≡ numbers.items ++ z ∷ [])) }
    ensures fault { IfErr result (λ e. IsFaultOf e (signed_varint (left cut.old))) }
{
    numbers.push(next_signed(cut)?)?;
    Ok(numbers)
}
