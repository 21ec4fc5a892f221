//! The lines of made records, as they are written.

ghost use Rattle.std.specs.Prelude.{◌≡◌, OnOk, OnErr};
ghost use Rattle.dr_outside.specs.Faults.{raised};
ghost use Rattle.dr_outside.specs.Sink.{AddedWhole, AddedFront};
ghost use Rattle.dr_gen.specs.Left.{left_of};

use crate::source::GenSource;
use dr_outside::{Failed, Sink, write_all};

/// How many bytes are written at once.
const PIECE: usize = 16_384;

impl GenSource {
    /// Writes all that is left, in pieces. After a failure some front of it was written, and nothing is written behind
    /// it.
    pub fn write_to<O: Sink>(&mut self, out: &mut O) -> Result<(), Failed>
        ensures whole { OnOk result (AddedWhole (O.shows out.old) (O.shows out.new) (left_of self.old)) }
        ensures front { OnErr result (AddedFront (O.shows out.old) (O.shows out.new) (left_of self.old)) }
        ensures cause { OnErr result ((O.shows out.new).faults ≡ raised (O.shows out.old).faults) }
        ensures calm { OnOk result ((O.shows out.new).faults ≡ (O.shows out.old).faults) }
    {
        let mut piece = [0; PIECE];
        let mut filled = self.fill(&mut piece);
        'pieces: while filled > 0 {
            write_all(out, &piece[..filled])?;
            filled = self.fill(&mut piece);
        }
        Ok(())
    }
}
