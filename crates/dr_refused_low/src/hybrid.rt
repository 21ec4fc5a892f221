//! Hybrid data.

ghost use Rattle.std.specs.Prelude.{◌≡◌, ◌≤◌, length, Some, None, OnOk, OnErr};
ghost use Rattle.dr_formats.specs.Hybrid.{hybrid};

use dr_hybrid::{Packable, Short, decode};

/// As `decode`.
pub fn decoded<T: Packable>(bytes: &[u8], width: u32, out: &mut [T]) -> Result<(), Short>
    requires { width ≤ T.greatest_width }
    ensures decoded { OnOk result (hybrid width (length out.old) bytes.now ≡ Some (T.numbers out.new)) }
    ensures short { OnErr result (hybrid width (length out.old) bytes.now ≡ None) }
{
    decode(bytes, width, out)
}
