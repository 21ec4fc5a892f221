//! Sinks.

ghost use Rattle.std.specs.Prelude.{◌≡◌, OnOk, OnErr};
ghost use Rattle.dr_outside.specs.Faults.{raised};
ghost use Rattle.dr_outside.specs.Sink.{AddedWhole, AddedFront};

use dr_outside::{Failed, Sink, write_all};

/// As `write_all`.
pub fn write_whole<O: Sink>(out: &mut O, piece: &[u8]) -> Result<(), Failed>
    ensures whole { OnOk result (AddedWhole (O.shows out.old) (O.shows out.new) piece.now) }
    ensures front { OnErr result (AddedFront (O.shows out.old) (O.shows out.new) piece.now) }
    ensures cause { OnErr result ((O.shows out.new).faults ≡ raised (O.shows out.old).faults) }
    ensures calm { OnOk result ((O.shows out.new).faults ≡ (O.shows out.old).faults) }
{
    write_all(out, piece)
}
