//! Sinks that write to writers.

ghost use Rattle.std.specs.Prelude.{◌≡◌, ◌<◌, ◌≤◌, length, take, IfOk, OnOk, OnErr};
ghost use Rattle.dr_outside.specs.Faults.{raised};
ghost use Rattle.dr_outside.specs.Sink.{Added};

use dr_files::Outgoing;
use dr_outside::{Failed, Sink};
use std::io::Write;

/// As `Outgoing::write`.
pub fn write_to<W: Write>(out: &mut Outgoing<W>, piece: &[u8]) -> Result<usize, Failed>
    ensures fits { IfOk result (λ n. n ≤ length piece.now) }
    ensures added { IfOk result (λ n. Added (⟦<Outgoing<W> as Sink>⟧.shows out.old).written
        (⟦<Outgoing<W> as Sink>⟧.shows out.new).written (take n piece.now)) }
    ensures some { IfOk result (λ n. 0 < length piece.now → 0 < n) }
    ensures called { (⟦<Outgoing<W> as Sink>⟧.shows out.new).calls ≡ raised
        (⟦<Outgoing<W> as Sink>⟧.shows out.old).calls }

    // A failed write adds nothing, and counts one fault.
    ensures stays { OnErr result ((⟦<Outgoing<W> as Sink>⟧.shows out.new).written ≡
        (⟦<Outgoing<W> as Sink>⟧.shows out.old).written) }
    ensures cause { OnErr result ((⟦<Outgoing<W> as Sink>⟧.shows out.new).faults ≡ raised
        (⟦<Outgoing<W> as Sink>⟧.shows out.old).faults) }
    ensures calm { OnOk result ((⟦<Outgoing<W> as Sink>⟧.shows out.new).faults ≡
        (⟦<Outgoing<W> as Sink>⟧.shows out.old).faults) }
    ensures never_falls { (⟦<Outgoing<W> as Sink>⟧.shows out.old).faults ≤
        (⟦<Outgoing<W> as Sink>⟧.shows out.new).faults }
{
    out.write(piece)
}
