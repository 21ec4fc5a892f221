//! Truth values in hybrid data.

ghost use Rattle.std.specs.Prelude.{◌≡◌, ◌==◌, map, OnOk};

use dr_memory::NoMemory;

/// Puts bits into the place of truth values: 1 for true.
pub(crate) fn put_bits(bits: &[u8], out: &mut Vec<bool>) -> Result<(), NoMemory>
    ensures { OnOk result ((out.new).items ≡ map (λ b. b == 1) bits.now) }
{
    out.clear();
    out.reserve(bits.len())?;
    'bits: for bit in bits {
        out.push_reserved(*bit == 1);
    }
    Ok(())
}
