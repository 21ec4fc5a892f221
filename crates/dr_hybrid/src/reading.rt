//! Reading a run.

ghost use Rattle.std.specs.Prelude.{◌≡◌, ◌≤◌, IfOk, OnErr};
ghost use Rattle.dr_formats.specs.Reading.{got};
ghost use Rattle.dr_formats.specs.Hybrid.{short, run};
ghost use Rattle.dr_bytes.specs.Cutting.{left};
ghost use Rattle.dr_bytes.specs.Numbers.{IsFault};
ghost use Rattle.dr_hybrid.specs.Views.{run_ahead, repeated, packed_ahead, values_of, IsOfWidth};

use crate::runs::{Packed, Run, Short};
use crate::words::{number_of, packed_length};
use dr_bytes::Cut;

/// The next run of which so many values are wanted.
pub(crate) fn next_run<'a>(cut: &mut Cut<'a>, width: u32, wanted: usize) -> Result<Run<'a>, Short>
    requires { width ≤ 32 }
    ensures read { IfOk result (λ r. run_ahead width wanted (left cut.old) ≡ got (values_of r) (left cut.new)) }
    ensures kind { IfOk result (λ r. IsOfWidth width r) }
    ensures short { OnErr result (IsFault short (run_ahead width wanted (left cut.old))) }
{
    match cut.varint() {
        Ok(header) => run_of(cut, width, wanted, header),
        Err(_) => Err(Short),
    }
}

/// The run behind a header: even, a repeat; odd, packed groups of eight.
fn run_of<'a>(cut: &mut Cut<'a>, width: u32, wanted: usize, header: u64) -> Result<Run<'a>, Short>
    requires { width ≤ 32 }
    ensures read { IfOk result (λ r. run width wanted header (left cut.old) ≡ got (values_of r) (left cut.new)) }
    ensures kind { IfOk result (λ r. IsOfWidth width r) }
    ensures short { OnErr result (IsFault short (run width wanted header (left cut.old))) }
{
    let length = header / 2;
    if header % 2 == 0 {
        repeat(cut, width, length.min(wanted as u64) as usize)
    } else {
        let values = length.saturating_mul(8);
        packed(cut, width, values.min(wanted as u64) as usize)
    }
}

/// A repeat of so many.
fn repeat<'a>(cut: &mut Cut<'a>, width: u32, count: usize) -> Result<Run<'a>, Short>
    requires { width ≤ 32 }
    ensures read { IfOk result (λ r. repeated width count (left cut.old) ≡ got (values_of r) (left cut.new)) }
    ensures kind { IfOk result (λ r. IsOfWidth width r) }
    ensures short { OnErr result (IsFault short (repeated width count (left cut.old))) }
{
    match cut.take((width as usize + 7) / 8) {
        Ok(bytes) => Ok(Run::Repeat {
            value: number_of(bytes),
            count,
        }),
        Err(_) => Err(Short),
    }
}

/// So many packed values.
fn packed<'a>(cut: &mut Cut<'a>, width: u32, count: usize) -> Result<Run<'a>, Short>
    requires { width ≤ 32 }
    ensures read { IfOk result (λ r. packed_ahead width count (left cut.old) ≡ got (values_of r) (left cut.new)) }
    ensures kind { IfOk result (λ r. IsOfWidth width r) }
    ensures short { OnErr result (IsFault short (packed_ahead width count (left cut.old))) }
{
    let Some(length) = packed_length(count, width) else {
        return Err(Short);
    };
    match cut.take(length) {
        Ok(bytes) => Ok(Run::Packed(Packed {
            bytes,
            width,
            count,
        })),
        Err(_) => Err(Short),
    }
}
