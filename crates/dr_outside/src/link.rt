ghost use Rattle.std.specs.Prelude.{◌≡◌, ◌≢◌, ◌≤◌, length, IsTrue, IfOk, OnOk, Err};
ghost use Rattle.dr_outside.specs.Faults.{raised};
ghost use Rattle.dr_outside.specs.Link.{LinkShown, Holds, Lacks, HasRange, LacksRange, HasSize, HasBytes, size_of, bytes_of, with_request};

use crate::Fault;

/// Files that are read by ranges.
pub trait Link {
    /// What it shows: the files that it holds, what it was asked for and what was put, where it tells them, and its
    /// count of faults.
    ghost shows: { Self → LinkShown };

    /// The number of bytes at a path.
    fn size(&mut self, path: &str) -> Result<u64, Fault>
        ensures bytes { IfOk result (λ n. HasSize (shows self.old).held path.now n) }
        ensures absent { Lacks (shows self.old).held path.now → result ≢ Err Fault.NoMemory → result
            ≡ Err Fault.Failed }
        ensures steady { IsTrue (shows self.old).is_steady → Holds (shows self.old).held path.now → result
            ≢ Err Fault.Failed }

        ensures same { (shows self.new).held ≡ (shows self.old).held }
        ensures puts { (shows self.new).puts ≡ (shows self.old).puts }
        ensures asked { result ≢ Err Fault.NoMemory → (shows self.new).asked
            ≡ with_request (shows self.old).asked (size_of path.now) }
        ensures not_asked { result ≡ Err Fault.NoMemory → (shows self.new).asked ≡ (shows self.old).asked }
        ensures cause { result ≡ Err Fault.Failed → (shows self.new).faults ≡ raised (shows self.old).faults }
        ensures calm { result ≢ Err Fault.Failed → (shows self.new).faults ≡ (shows self.old).faults }
        ensures never_falls { (shows self.old).faults ≤ (shows self.new).faults }
        ensures stays_steady { IsTrue (shows self.old).is_steady → IsTrue (shows self.new).is_steady };

    /// Fills `buf` with the bytes of a path from `at` on. After a refusal `buf` may hold anything.
    fn read_at(&mut self, path: &str, at: u64, buf: &mut [u8]) -> Result<(), Fault>
        ensures bytes { OnOk result (HasBytes (shows self.old).held path.now at buf.new) }
        ensures absent { LacksRange (shows self.old).held (record { path = path.now; start = at; len = length buf.old })
            → result ≢ Err Fault.NoMemory → result ≡ Err Fault.Failed }
        ensures steady { IsTrue (shows self.old).is_steady
            → HasRange (shows self.old).held (record { path = path.now; start = at; len = length buf.old }) → result
            ≢ Err Fault.Failed }

        ensures same { (shows self.new).held ≡ (shows self.old).held }
        ensures puts { (shows self.new).puts ≡ (shows self.old).puts }
        ensures asked { result ≢ Err Fault.NoMemory → (shows self.new).asked
            ≡ with_request (shows self.old).asked (bytes_of
            (record { path = path.now; start = at; len = length buf.old })) }
        ensures not_asked { result ≡ Err Fault.NoMemory → (shows self.new).asked ≡ (shows self.old).asked }
        ensures cause { result ≡ Err Fault.Failed → (shows self.new).faults ≡ raised (shows self.old).faults }
        ensures calm { result ≢ Err Fault.Failed → (shows self.new).faults ≡ (shows self.old).faults }
        ensures never_falls { (shows self.old).faults ≤ (shows self.new).faults }
        ensures stays_steady { IsTrue (shows self.old).is_steady → IsTrue (shows self.new).is_steady };

    /// The count of faults.
    fn faults(&self) -> u64
        ensures { result ≡ (shows self.now).faults };
}
