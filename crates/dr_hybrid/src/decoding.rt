//! Hybrid data as values.

ghost use Rattle.std.specs.Prelude.{◌≡◌, ◌≤◌, length, Some, None, OnOk, OnErr};
ghost use Rattle.dr_formats.specs.Hybrid.{hybrid};

use crate::packable::Packable;
use crate::run_reader::RunReader;
use crate::runs::Short;

/// The values of a width with which bytes begin, as many as there is room for: of at most 32 bits, or of eight as
/// bytes. Takes no memory.
///
/// Errors: the bytes begin with no runs for so many values; there may then be any values in `out`.
pub fn decode<T: Packable>(bytes: &[u8], width: u32, out: &mut [T]) -> Result<(), Short>
    requires { width ≤ T.greatest_width }
    ensures decoded { OnOk result (hybrid width (length out.old) bytes.now ≡ Some (T.numbers out.new)) }
    ensures short { OnErr result (hybrid width (length out.old) bytes.now ≡ None) }
{
    RunReader::start(width).next(bytes, out)
}
