//! Lines on standard error.

ghost use Rattle.dr_top.specs.Ends.{Says};

use dr_outside::{Sink, write_all};

/// Writes a line on standard error; a failure changes nothing else.
pub fn say<E: Sink>(err: &mut E, line: &[u8])
    ensures { Says (E.shows err.old) (E.shows err.new) line.now }
{
    let _ = write_all(err, line);
}
