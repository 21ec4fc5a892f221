//! Reading a variable-length number.

ghost use Rattle.std.specs.Prelude.{◌≡◌, ◌≤◌, length, drop, IfOk, IfErr};
ghost use Rattle.dr_formats.specs.Reading.{got};
ghost use Rattle.dr_formats.specs.Varint.{read_varint};
ghost use Rattle.dr_bytes.specs.Numbers.{IsFault, varint_fault_view};

use crate::fault::VarintFault;
use crate::spelling::LONGEST_VARINT;

/// The number at the front of bytes, and how many bytes it takes.
#[inline]
pub(crate) fn front_varint(bytes: &[u8]) -> Result<(u64, usize), VarintFault>
    ensures number { IfOk result (λ r. read_varint bytes.now ≡ got r.0 (drop r.1 bytes.now)) }
    ensures within { IfOk result (λ r. r.1 ≤ length bytes.now) }
    ensures fault { IfErr result (λ e. IsFault (varint_fault_view e) (read_varint bytes.now)) }
{
    match bytes {
        [first, ..] if *first < 128 => Ok((u64::from(*first), 1)),
        _ => long_varint(bytes),
    }
}

/// The same, byte by byte.
fn long_varint(bytes: &[u8]) -> Result<(u64, usize), VarintFault>
    ensures number { IfOk result (λ r. read_varint bytes.now ≡ got r.0 (drop r.1 bytes.now)) }
    ensures within { IfOk result (λ r. r.1 ≤ length bytes.now) }
    ensures fault { IfErr result (λ e. IsFault (varint_fault_view e) (read_varint bytes.now)) }
{
    let mut sum = 0u64;
    let mut worth = 1u64;
    'bytes: for (count, byte) in bytes.iter().enumerate() {
        let low = u64::from(*byte % 128);
        if count + 1 == LONGEST_VARINT {
            return if *byte > 1 {
                Err(VarintFault::TooLong)
            } else {
                Ok((sum + low * worth, LONGEST_VARINT))
            };
        }
        sum += low * worth;
        if *byte < 128 {
            return Ok((sum, count + 1));
        }
        worth *= 128;
    }
    Err(VarintFault::Short)
}
