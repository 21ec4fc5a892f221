ghost use Rattle.std.specs.Prelude.{◌≡◌, ◌<◌, ◌≤◌, length, take, IfOk, OnOk, OnErr};
ghost use Rattle.dr_outside.specs.Faults.{raised};
ghost use Rattle.dr_outside.specs.Sink.{SinkShown, Added, AddedWhole, AddedFront};

use crate::Failed;

/// What is written from front to end.
pub trait Sink {
    /// What it shows: the bytes that were written, where it tells them, and its counts of faults and of writes.
    ghost shows: { Self → SinkShown };

    /// Takes bytes from the front of `piece`, and says how many: at least one, unless there is none.
    fn write(&mut self, piece: &[u8]) -> Result<usize, Failed>
        ensures fits { IfOk result (λ n. n ≤ length piece.now) }
        ensures added { IfOk result (λ n. Added (shows self.old).written (shows self.new).written (take n piece.now)) }
        ensures some { IfOk result (λ n. 0 < length piece.now → 0 < n) }
        ensures called { (shows self.new).calls ≡ raised (shows self.old).calls }

        // A failed write adds nothing, and counts one fault.
        ensures stays { OnErr result ((shows self.new).written ≡ (shows self.old).written) }
        ensures cause { OnErr result ((shows self.new).faults ≡ raised (shows self.old).faults) }
        ensures calm { OnOk result ((shows self.new).faults ≡ (shows self.old).faults) }
        ensures never_falls { (shows self.old).faults ≤ (shows self.new).faults };
}

/// Writes the whole piece. After a failure some front of it was written, and nothing is written behind it. No write is
/// asked for without a byte to write.
pub fn write_all<O: Sink>(out: &mut O, piece: &[u8]) -> Result<(), Failed>
    ensures whole { OnOk result (AddedWhole (O.shows out.old) (O.shows out.new) piece.now) }
    ensures front { OnErr result (AddedFront (O.shows out.old) (O.shows out.new) piece.now) }
    ensures cause { OnErr result ((O.shows out.new).faults ≡ raised (O.shows out.old).faults) }
    ensures calm { OnOk result ((O.shows out.new).faults ≡ (O.shows out.old).faults) }
{
    let mut rest = piece;
    'pieces: while !rest.is_empty() {
        let taken = out.write(rest)?;
        rest = &rest[taken..];
    }
    Ok(())
}
