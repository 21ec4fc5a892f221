ghost use Rattle.std.specs.Prelude.{◌≡◌, ◌<◌, Some, []};
ghost use Rattle.dr_outside.specs.Failing.{unused};

use crate::failures::Failures;
use crate::{Failed, Sink};
use std::alloc::Global;
use std::marker::Model;

/// A sink that keeps its bytes in memory. Where there is no memory for more, a write fails.
#[derive(Debug, Drop)]
pub struct MemSink {
    written: Vec<u8>,
    most: usize,
    failing: Failures,
}

impl Model for MemSink {
    ghost use Rattle.std.specs.Prelude.{◌<◌};
    ghost use Rattle.dr_outside.specs.Memory.{SinkState};

    ghost Value = { SinkState };

    ghost view = { λ s. record { written = s.written.items; most = s.most; failing = s.failing } };

    ghost invariant = { λ s. 0 < s.most };
}

impl MemSink {
    /// The writes with these numbers fail, counted from 1.
    pub fn new(alloc: Global, failing: Vec<u64>) -> Self
        ensures { result ≡ record { written = []; most = usize.MAX; failing = unused failing.items } }
    {
        MemSink::narrow(alloc, usize::MAX, failing)
    }

    /// The same, where one write takes at most `most` bytes.
    pub fn narrow(alloc: Global, most: usize, failing: Vec<u64>) -> Self
        requires { 0 < most }
        ensures { result ≡ record { written = []; most = most; failing = unused failing.items } }
    {
        MemSink {
            written: Vec::new(alloc),
            most,
            failing: Failures::new(failing),
        }
    }

    /// The bytes that were written.
    pub fn written(&self) -> &[u8]
        ensures { result.now ≡ self.now.written }
    {
        &self.written
    }

    /// The count of faults.
    pub fn faults(&self) -> u64
        ensures { result ≡ self.now.failing.faults }
    {
        self.failing.faults()
    }
}

impl Sink for MemSink {
    ghost use Rattle.std.specs.Prelude.{◌≤◌, true, min, length, take, IsErr, IfOk, OnOk, OnErr};
    ghost use Rattle.dr_outside.specs.Failing.{is_due, after_call};
    ghost use Rattle.dr_outside.specs.Faults.{raised};
    ghost use Rattle.dr_outside.specs.Sink.{Added};

    ghost shows = { λ s. record { written = Some s.written; faults = s.failing.faults; calls = s.failing.calls } };

    /// Fails at the listed calls, and where there is no memory; else takes as many bytes as one write takes.
    fn write(&mut self, piece: &[u8]) -> Result<usize, Failed>
        ensures fits { IfOk result (λ n. n ≤ length piece.now) }
        ensures added { IfOk result (λ n. Added (Some self.old.written) (Some self.new.written) (take n piece.now)) }
        ensures some { IfOk result (λ n. 0 < length piece.now → 0 < n) }
        ensures called { self.new.failing.calls ≡ raised self.old.failing.calls }
        ensures stays { OnErr result (Some self.new.written ≡ Some self.old.written) }
        ensures cause { OnErr result (self.new.failing.faults ≡ raised self.old.failing.faults) }
        ensures calm { OnOk result (self.new.failing.faults ≡ self.old.failing.faults) }
        ensures never_falls { self.old.failing.faults ≤ self.new.failing.faults }

        // What is said of this sink alone.
        ensures due { is_due self.old.failing ≡ true → IsErr result }
        ensures takes { IfOk result (λ n. n ≡ min (length piece.now) self.old.most) }
        ensures counted { OnOk result (self.new.failing ≡ after_call self.old.failing) }
        ensures narrow { self.new.most ≡ self.old.most }
    {
        if self.failing.strike() {
            return Err(Failed);
        }
        let count = piece.len().min(self.most);
        match self.written.extend_from_slice(&piece[..count]) {
            Ok(()) => Ok(count),
            Err(_) => {
                self.failing.raise();
                Err(Failed)
            }
        }
    }
}
