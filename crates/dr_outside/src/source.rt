ghost use Rattle.std.specs.Prelude.{◌≡◌, ◌<◌, ◌≤◌, length, take, IsTrue, IsOk, IfOk, OnOk, OnErr};
ghost use Rattle.dr_outside.specs.Faults.{raised};
ghost use Rattle.dr_outside.specs.Source.{SourceShown, Took, EndsExactly};

use crate::Failed;

/// What is read from front to end.
pub trait Source {
    /// What it shows: the bytes that are left, where it tells them, and its count of faults.
    ghost shows: { Self → SourceShown };

    /// Takes the next bytes into the front of `buf`, and says how many. 0 for a buffer that isn't
    /// empty is the end. What stands in `buf` behind them, or after a failure, may be anything.
    fn read(&mut self, buf: &mut [u8]) -> Result<usize, Failed>
        ensures fits { IfOk result (λ n. n ≤ length buf.new) }
        ensures took { IfOk result (λ n. Took (shows self.old).left (shows self.new).left (take n buf.new)) }
        ensures end { IfOk result (λ n. 0 < length buf.new → EndsExactly (shows self.old).left n) }

        // A failed read takes nothing, and counts one fault.
        ensures stays { OnErr result ((shows self.new).left ≡ (shows self.old).left) }
        ensures cause { OnErr result ((shows self.new).faults ≡ raised (shows self.old).faults) }
        ensures calm { OnOk result ((shows self.new).faults ≡ (shows self.old).faults) }
        ensures never_falls { (shows self.old).faults ≤ (shows self.new).faults }
        ensures steady { IsTrue (shows self.old).is_steady → IsOk result }
        ensures stays_steady { IsTrue (shows self.old).is_steady → IsTrue (shows self.new).is_steady };
}
