//! Values of a kind, read and written.

ghost use Rattle.std.specs.Prelude.{◌≡◌, ◌++◌, true, Some, IfOk, IfErr, OnOk, OnErr};
ghost use Rattle.std.specs.List.{list_all};
ghost use Rattle.dr_nested.specs.Views.{kind_view};
ghost use Rattle.dr_formats.specs.Plain.{plain, plain_values, plain_bytes, is_writable};
ghost use Rattle.dr_plain.specs.Views.{values_view, HasTexts, IsFaultOf, IsOfKind};

use crate::reading::{append_bools, append_int32s, append_int64s};
use crate::texts::append_texts;
use crate::values::{PlainFault, Values};
use crate::writing::{write_bools, write_int32s, write_int64s, write_texts};
use dr_nested::{Kind, NoMemory};
use std::alloc::Global;

/// The values of a kind with which bytes begin in the encoding PLAIN, as many as are asked for.
///
/// Errors: the bytes end before, or a text is not UTF-8, whichever comes first; want of memory.
pub fn read_plain(
    alloc: Global,
    kind: Kind,
    count: usize,
    bytes: &[u8],
) -> Result<Values, PlainFault>
    ensures read { IfOk result (λ v. plain_values (kind_view kind) count bytes.now ≡ Some (values_view bytes.now v)) }
    ensures texts { IfOk result (λ v. HasTexts bytes.now v) }
    ensures kind { IfOk result (λ v. IsOfKind kind v) }
    ensures fault { IfErr result (λ e. IsFaultOf e (plain (kind_view kind) count bytes.now)) }
{
    match kind {
        Kind::Bool => {
            let mut bools = Vec::new(alloc);
            append_bools(bytes, count, &mut bools)?;
            Ok(Values::Bools(bools))
        }
        Kind::I32 => {
            let mut integers = Vec::new(alloc);
            append_int32s(bytes, count, &mut integers)?;
            Ok(Values::Integers(integers))
        }
        Kind::I64 => {
            let mut integers = Vec::new(alloc);
            append_int64s(bytes, count, &mut integers)?;
            Ok(Values::Integers(integers))
        }
        Kind::Text => {
            let mut texts = Vec::new(alloc);
            append_texts(bytes, count, &mut texts)?;
            Ok(Values::Texts(texts))
        }
    }
}

/// Appends the bytes that are written for values of a kind in the encoding PLAIN; texts stand in `bytes`.
///
/// Errors: want of memory alone; `out` is then as it was.
pub fn write_plain(
    kind: Kind,
    values: &Values,
    bytes: &[u8],
    out: &mut Vec<u8>,
) -> Result<(), NoMemory>
    requires kind { IsOfKind kind values.now }
    requires texts { HasTexts bytes.now values.now }
    requires writable { list_all (is_writable (kind_view kind)) (values_view bytes.now values.now) ≡ true }
    ensures written { OnOk result ((out.new).items
        ≡ (out.old).items ++ plain_bytes (kind_view kind) (values_view bytes.now values.now)) }
    ensures stays { OnErr result ((out.new).items ≡ (out.old).items) }
{
    match (kind, values) {
        (Kind::Bool, Values::Bools(bools)) => write_bools(bools, out),
        (Kind::I32, Values::Integers(integers)) => write_int32s(integers, out),
        (Kind::I64, Values::Integers(integers)) => write_int64s(integers, out),
        (Kind::Text, Values::Texts(texts)) => write_texts(texts, bytes, out),
        _ => unreachable!(),
    }
}
