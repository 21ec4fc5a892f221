ghost use Rattle.std.specs.Prelude.{◌≡◌, Some};
ghost use Rattle.dr_outside.specs.Failing.{unused};

use crate::failures::Failures;
use crate::{Failed, Source};
use std::marker::Model;

/// A source over bytes in memory.
#[derive(Debug, Drop)]
pub struct MemSource<'a> {
    left: &'a [u8],
    failing: Failures,
}

impl<'a> Model for MemSource<'a> {
    ghost use Rattle.dr_outside.specs.Memory.{SourceState};

    ghost Value = { SourceState };

    ghost view = { λ s. record { left = s.left.now; failing = s.failing } };
}

impl<'a> MemSource<'a> {
    /// The reads with these numbers fail, counted from 1.
    pub fn new(bytes: &'a [u8], failing: Vec<u64>) -> Self
        ensures { result ≡ record { left = bytes.entry.now; failing = unused failing.items } }
    {
        MemSource {
            left: bytes,
            failing: Failures::new(failing),
        }
    }

    /// The bytes that are left.
    pub fn left(&self) -> &[u8]
        ensures { result.now ≡ self.now.left }
    {
        self.left
    }

    /// The count of faults.
    pub fn faults(&self) -> u64
        ensures { result ≡ self.now.failing.faults }
    {
        self.failing.faults()
    }
}

impl Source for MemSource<'_> {
    ghost use Rattle.std.specs.Prelude.{◌≡◌, ◌<◌, ◌≤◌, true, false, min, length, take, IsTrue, IsOk, IsErr, IfOk, OnOk, OnErr, Ok};
    ghost use Rattle.dr_outside.specs.Failing.{is_due, is_quiet, after_call};
    ghost use Rattle.dr_outside.specs.Faults.{raised};
    ghost use Rattle.dr_outside.specs.Source.{Took, EndsExactly};

    ghost shows = { λ s. record { left = Some s.left; faults = s.failing.faults; is_steady = is_quiet s.failing } };

    /// Fails exactly at the listed calls; else gives as many bytes as are left and fit.
    fn read(&mut self, buf: &mut [u8]) -> Result<usize, Failed>
        ensures fits { IfOk result (λ n. n ≤ length buf.new) }
        ensures took { IfOk result (λ n. Took (Some self.old.left) (Some self.new.left) (take n buf.new)) }
        ensures end { IfOk result (λ n. 0 < length buf.new → EndsExactly (Some self.old.left) n) }
        ensures stays { OnErr result (Some self.new.left ≡ Some self.old.left) }
        ensures cause { OnErr result (self.new.failing.faults ≡ raised self.old.failing.faults) }
        ensures calm { OnOk result (self.new.failing.faults ≡ self.old.failing.faults) }
        ensures never_falls { self.old.failing.faults ≤ self.new.failing.faults }
        ensures steady { IsTrue (is_quiet self.old.failing) → IsOk result }
        ensures stays_steady { IsTrue (is_quiet self.old.failing) → IsTrue (is_quiet self.new.failing) }

        // What is said of this source alone.
        ensures due { is_due self.old.failing ≡ true → IsErr result }
        ensures gives { is_due self.old.failing ≡ false → result ≡ Ok (min (length buf.new) (length self.old.left)) }
        ensures counted { self.new.failing ≡ after_call self.old.failing }
    {
        if self.failing.strike() {
            return Err(Failed);
        }
        let count = buf.len().min(self.left.len());
        let (taken, rest) = self.left.split_at(count);
        buf[..count].copy_from_slice(taken);
        self.left = rest;
        Ok(count)
    }
}
