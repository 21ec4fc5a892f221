//! The value of a line as the line has it: texts and keys are the line's, and numbers are texts.

ghost use Rattle.std.specs.Prelude.{◌≡◌, ◌==◌, ◌<◌, ◌≤◌, length, slice_index, option_map, option_and_then, IfOk, IfSome, IsTrue, true, false};
ghost use Rattle.std.specs.Str.{is_utf8};
ghost use Rattle.json.specs.Json.{object};
ghost use Rattle.json.specs.Find.{get_member};
ghost use Rattle.json.specs.Value.{value_view, members_view};
ghost use Rattle.serde_json.specs.Find.{as_integer};
ghost use Rattle.serde_json.specs.Read.{number_of, number_from};
ghost use Rattle.dr_meaning.specs.Record.{atom, text_value, is_atom_of, in_int32, in_int64};
ghost use Rattle.dr_meaning.specs.Schema.{bool_kind, text_kind, int32_kind, int64_kind};
ghost use Rattle.dr_nested.specs.Views.{kind_view};
ghost use Rattle.dr_levels.specs.Views.{lent_value};
ghost use Rattle.dr_json.specs.Raw.{IsLineOf, near, present as present_in, where_fits, leaf_raw};

use dr_levels::ValueRef;
use dr_nested::{Kind, NoMemory};
use fast_float::Numeral;
use json::{Error, Reader, Scratch, Value as Raw};
use std::alloc::Global;

/// A key, and its value.
pub(crate) type Member<'r> = (&'r str, Raw<'r>);

/// How deep arrays and objects nest at most.
const MOST_DEEP: usize = 127;

/// The value of a line, if it is one.
///
/// Errors: want of memory alone.
fn raw_value<'r>(
    alloc: Global,
    line: &'r [u8],
    scratch: &'r mut Scratch,
) -> Result<Option<Raw<'r>>, NoMemory>
    ensures { IfOk result (λ o. IfSome o (λ v. IsLineOf line.now (value_view v))) }
{
    let Ok(text) = simdutf8::basic::from_utf8(line) else {
        return Ok(None);
    };
    let Ok(mut reader) = Reader::new(text, scratch) else {
        return Err(NoMemory);
    };
    match Raw::read(alloc, &mut reader, MOST_DEEP) {
        Ok(value) => match reader.next() {
            None => Ok(Some(value)),
            Some(_) => Ok(None),
        },
        Err(Error::OutOfMemory) => Err(NoMemory),
        Err(_) => Ok(None),
    }
}

/// The members of the object that a line is, if it is one.
///
/// Errors: want of memory alone.
pub(crate) fn raw_members<'r>(
    alloc: Global,
    line: &'r [u8],
    scratch: &'r mut Scratch,
) -> Result<Option<Vec<Member<'r>>>, NoMemory>
    ensures { IfOk result (λ o. IfSome o (λ ms. IsLineOf line.now (object (members_view ms.items)))) }
{
    match raw_value(alloc, line, scratch)? {
        Some(Raw::Object(members)) => Ok(Some(members)),
        _ => Ok(None),
    }
}

/// The last member of a name, and its place.
#[inline(always)]
fn last_named<'v, 'r>(members: &'v [Member<'r>], name: &str) -> Option<(usize, &'v Raw<'r>)>
    ensures value { option_map (λ r. value_view r.1.now) result ≡ get_member name.now (members_view members.now) }
    ensures place { IfSome result (λ r. r.0 < length members.now) }
{
    let mut left = members.len();
    'members: while left > 0 {
        left -= 1;
        let (key, value) = &members[left];
        if *key == name {
            return Some((left, value));
        }
    }
    None
}

/// The member at a place, where it has this name, and else the last member of the name; and its place.
#[inline(always)]
pub(crate) fn member_near<'v, 'r>(
    members: &'v [Member<'r>],
    place: usize,
    name: &str,
) -> Option<(usize, &'v Raw<'r>)>
    ensures value { option_map (λ r. value_view r.1.now) result ≡ near place name.now (members_view members.now) }
    ensures place { IfSome result (λ r. r.0 < length members.now) }
{
    match members.get(place) {
        None => last_named(members, name),
        Some((key, value)) => {
            if *key == name {
                Some((place, value))
            } else {
                last_named(members, name)
            }
        }
    }
}

/// The member of a name, looked for first at a place, which becomes the one behind it.
#[inline(always)]
pub(crate) fn next_member<'v, 'r>(
    members: &'v [Member<'r>],
    place: &mut usize,
    name: &str,
) -> Option<&'v Raw<'r>>
    ensures { option_map (λ v. value_view v.now) result ≡ near place.old name.now (members_view members.now) }
{
    let (found, value) = member_near(members, *place, name)?;
    *place = found + 1;
    Some(value)
}

/// What stands for a field: nothing, where its key is missing or its value is null.
#[inline(always)]
pub(crate) fn present<'v, 'r>(found: Option<&'v Raw<'r>>) -> Option<&'v Raw<'r>>
    ensures { option_map (λ v. value_view v.now) result ≡ present_in (option_map (λ v. value_view v.now) found.entry) }
{
    match found {
        Some(value) if !value.is_null() => Some(value),
        _ => None,
    }
}

/// The value of a leaf of this kind, if it is one.
#[inline(always)]
pub(crate) fn raw_leaf<'r>(kind: Kind, value: &Raw<'r>) -> Option<ValueRef<'r>>
    ensures value { option_map (λ v. atom (lent_value v)) result ≡ leaf_raw (kind_view kind) (value_view value.now) }
    ensures form { IfSome result (λ v. is_atom_of (kind_view kind) (atom (lent_value v)) ≡ true) }
{
    match kind {
        Kind::Bool => bool_of(value),
        Kind::I32 => int32_of(value),
        Kind::I64 => int64_of(value),
        Kind::Text => text_of(value),
    }
}

#[inline(always)]
fn bool_of<'r>(value: &Raw<'r>) -> Option<ValueRef<'r>>
    ensures value { option_map (λ v. atom (lent_value v)) result ≡ leaf_raw bool_kind (value_view value.now) }
    ensures form { IfSome result (λ v. is_atom_of bool_kind (atom (lent_value v)) ≡ true) }
{
    match value.as_bool() {
        Some(truth) => Some(ValueRef::Bool(truth)),
        None => None,
    }
}

#[inline(always)]
fn text_of<'r>(value: &Raw<'r>) -> Option<ValueRef<'r>>
    ensures value { option_map (λ v. atom (lent_value v)) result ≡ leaf_raw text_kind (value_view value.now) }
    ensures form { IfSome result (λ v. is_atom_of text_kind (atom (lent_value v)) ≡ true) }
{
    match value.as_str() {
        Some(text) => Some(lent_text(text)),
        None => None,
    }
}

#[inline(always)]
fn lent_text(text: &str) -> ValueRef<'_>
    ensures value { lent_value result ≡ text_value text.now }
    ensures form { is_utf8 text.now ≡ true }
{
    ValueRef::Text(text)
}

#[inline(always)]
fn int32_of<'r>(value: &Raw<'r>) -> Option<ValueRef<'r>>
    ensures value { option_map (λ v. atom (lent_value v)) result ≡ leaf_raw int32_kind (value_view value.now) }
    ensures form { IfSome result (λ v. is_atom_of int32_kind (atom (lent_value v)) ≡ true) }
{
    let Some(text) = value.as_number() else {
        return None;
    };
    match integer_of(text) {
        Some(integer) if fits_int32(integer) => Some(ValueRef::Int(integer)),
        _ => None,
    }
}

#[inline(always)]
fn fits_int32(integer: i64) -> bool
    ensures { result ≡ in_int32 integer }
{
    -(1 << 31) <= integer && integer < 1 << 31
}

#[inline(always)]
fn int64_of<'r>(value: &Raw<'r>) -> Option<ValueRef<'r>>
    ensures value { option_map (λ v. atom (lent_value v)) result ≡ leaf_raw int64_kind (value_view value.now) }
    ensures form { IfSome result (λ v. is_atom_of int64_kind (atom (lent_value v)) ≡ true) }
{
    let Some(text) = value.as_number() else {
        return None;
    };
    match integer_of(text) {
        Some(integer) => Some(ValueRef::Int(integer)),
        None => None,
    }
}

/// The whole number that a number's text is, if `i64` holds it. `-0` is none, nor is one with a point or an exponent.
#[inline]
fn integer_of(text: &str) -> Option<i64>
    ensures { result ≡ where_fits in_int64 (option_and_then as_integer (number_of text.now)) }
{
    let bytes = text.as_bytes();
    if has_minus(bytes) {
        below_zero(&Numeral::scan(&bytes[1..]))
    } else {
        not_below_zero(&Numeral::scan(bytes))
    }
}

#[inline(always)]
fn has_minus(bytes: &[u8]) -> bool
    ensures value { result ≡ (slice_index bytes.now 0 == 45) }
    ensures some { IsTrue result → 1 ≤ length bytes.now }
{
    !bytes.is_empty() && bytes[0] == b'-'
}

#[inline(always)]
fn not_below_zero(numeral: &Numeral<'_>) -> Option<i64>
    ensures { result ≡ where_fits in_int64 (option_and_then as_integer (number_from false numeral.now)) }
{
    numeral.to_i64(false)
}

#[inline(always)]
fn below_zero(numeral: &Numeral<'_>) -> Option<i64>
    ensures { result ≡ where_fits in_int64 (option_and_then as_integer (number_from true numeral.now)) }
{
    match numeral.to_i64(true) {
        Some(integer) if integer < 0 => Some(integer),
        _ => None,
    }
}
