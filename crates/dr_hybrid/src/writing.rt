//! Bytes that are appended.

ghost use Rattle.std.specs.Prelude.{◌≡◌, ◌≤◌, ◌<◌, ◌^◌, ◌++◌, OnOk, OnErr};
ghost use Rattle.dr_formats.specs.Hybrid.{repeat_of};
ghost use Rattle.dr_hybrid.specs.Writing.{BeginsWith};

use dr_bytes::Varint;
use dr_memory::NoMemory;

/// The header of one packed group of eight.
pub(crate) const GROUP: u8 = 3;

/// Appends bytes, or none.
#[inline(always)]
pub(crate) fn append(out: &mut Vec<u8>, bytes: &[u8]) -> Result<(), NoMemory>
    ensures written { OnOk result ((out.new).items ≡ (out.old).items ++ bytes.now) }
    ensures stays { OnErr result ((out.new).items ≡ (out.old).items) }
{
    Ok(out.extend_from_slice(bytes)?)
}

/// Appends a repeat of so many of a value.
pub(crate) fn append_repeat(
    value: u32,
    count: usize,
    width: u32,
    out: &mut Vec<u8>,
) -> Result<(), NoMemory>
    requires narrow { width ≤ 32 }
    requires few { count < 2 ^ 63 }
    ensures written { OnOk result ((out.new).items ≡ (out.old).items ++ (repeat_of width count value).bytes) }
    ensures begins { BeginsWith (out.old).items (out.new).items }
{
    append(out, Varint::new(2 * count as u64).as_slice())?;
    append(out, &value.to_le_bytes()[..(width as usize + 7) / 8])
}
