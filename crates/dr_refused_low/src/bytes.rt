//! Numbers of bytes.

ghost use Rattle.std.specs.Prelude.{◌≡◌, IfOk, IfErr, OnErr};
ghost use Rattle.dr_formats.specs.Reading.{got};
ghost use Rattle.dr_formats.specs.Varint.{read_varint};
ghost use Rattle.dr_bytes.specs.Numbers.{IsFault, varint_fault_view};
ghost use Rattle.dr_bytes.specs.Cutting.{whole, left};

use dr_bytes::{Cut, VarintFault};

/// As `Cut::varint`.
pub fn varint(cut: &mut Cut<'_>) -> Result<u64, VarintFault>
    ensures number { IfOk result (λ n. read_varint (left cut.old) ≡ got n (left cut.new)) }
    ensures fault { IfErr result (λ e. IsFault (varint_fault_view e) (read_varint (left cut.old))) }
    ensures stays { OnErr result (left cut.new ≡ left cut.old) }
    ensures whole { whole cut.new ≡ whole cut.old }
{
    cut.varint()
}
