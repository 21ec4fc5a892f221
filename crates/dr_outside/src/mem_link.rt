ghost use Rattle.std.specs.Prelude.{◌≡◌, [], map};
ghost use Rattle.dr_outside.specs.Failing.{unused};

use crate::failures::Failures;
use crate::{Fault, Link, Shelf};
use std::alloc::{AllocError, Global};

/// What a link was asked for.
#[derive(PartialEq, Eq, Debug, Drop)]
pub enum Asked {
    /// The number of bytes at a path.
    Size {
        path: String,
    },
    /// So many bytes at a path, from a byte offset on.
    Range {
        path: String,
        start: u64,
        len: usize,
    },
}

/// A link over a shelf that is lent. It keeps a list of what it was asked for, given or refused.
#[derive(Drop)]
pub struct MemLink<'a> {
    alloc: Global,
    shelf: &'a Shelf,
    requests: Vec<Asked>,
    failing: Failures,
}

impl<'a> MemLink<'a> {
    ghost use Rattle.std.specs.Prelude.{◌++◌, ◌∷◌, OnOk, OnErr};
    ghost use Rattle.dr_outside.specs.Link.{size_of, bytes_of};
    ghost use Rattle.dr_outside.specs.MemLink.{request_of, requests_of, shelf_of, link_failing};

    /// The calls with these numbers fail, counted from 1.
    pub fn new(alloc: Global, shelf: &'a Shelf, failing: Vec<u64>) -> Self
        ensures shelf { shelf_of result ≡ shelf.entry.now }
        ensures asked { requests_of result ≡ [] }
        ensures failing { link_failing result ≡ unused failing.items }
    {
        MemLink {
            alloc,
            shelf,
            requests: Vec::new(alloc),
            failing: Failures::new(failing),
        }
    }

    /// What it was asked for, in order.
    pub fn asked(&self) -> &[Asked]
        ensures { map request_of result.now ≡ requests_of self.now }
    {
        &self.requests
    }

    // Notes that the size of a path was asked for.
    fn note_size(&mut self, path: &str) -> Result<(), AllocError>
        ensures noted { OnOk result (requests_of self.new ≡ requests_of self.old ++ size_of path.now ∷ []) }
        ensures stays { OnErr result (requests_of self.new ≡ requests_of self.old) }
        ensures shelf { shelf_of self.new ≡ shelf_of self.old }
        ensures failing { link_failing self.new ≡ link_failing self.old }
    {
        let path = String::from_str(self.alloc, path)?;
        self.requests.push(Asked::Size { path })?;
        Ok(())
    }

    // Notes that a range was asked for.
    fn note_range(&mut self, path: &str, start: u64, len: usize) -> Result<(), AllocError>
        ensures noted { OnOk result (requests_of self.new
            ≡ requests_of self.old ++ bytes_of (record { path = path.now; start = start; len = len }) ∷ []) }
        ensures stays { OnErr result (requests_of self.new ≡ requests_of self.old) }
        ensures shelf { shelf_of self.new ≡ shelf_of self.old }
        ensures failing { link_failing self.new ≡ link_failing self.old }
    {
        let path = String::from_str(self.alloc, path)?;
        self.requests.push(Asked::Range { path, start, len })?;
        Ok(())
    }
}

impl Link for MemLink<'_> {
    ghost use Rattle.std.specs.Prelude.{◌≢◌, ◌≤◌, ℕ, List, Bool, true, false, Some, None, length, IsTrue, IfOk, OnOk, Err};
    ghost use Rattle.dr_outside.specs.Failing.{is_due, is_quiet};
    ghost use Rattle.dr_outside.specs.Faults.{raised};
    ghost use Rattle.dr_outside.specs.Link.{Holds, Lacks, HasRange, LacksRange, HasSize, HasBytes, size_of, bytes_of, with_request, no_puts};
    ghost use Rattle.dr_outside.specs.Shelf.{files_of};
    ghost use Rattle.dr_outside.specs.MemLink.{requests_of, shelf_of, link_failing};

    ghost shows = { λ l. record {
      held = Some (files_of (shelf_of l));
      asked = Some (requests_of l);
      puts = no_puts;
      faults = (link_failing l).faults;
      is_steady = is_quiet (link_failing l);
    } };

    /// Fails exactly at the listed calls and where the path isn't held.
    fn size(&mut self, path: &str) -> Result<u64, Fault>
        ensures bytes { IfOk result (λ n. HasSize (Some (files_of (shelf_of self.old))) path.now n) }
        ensures absent { Lacks (Some (files_of (shelf_of self.old))) path.now → result ≢ Err Fault.NoMemory → result
            ≡ Err Fault.Failed }
        ensures steady { IsTrue (is_quiet (link_failing self.old))
            → Holds (Some (files_of (shelf_of self.old))) path.now → result ≢ Err Fault.Failed }
        ensures same { (Some (files_of (shelf_of self.new))) ≡ (Some (files_of (shelf_of self.old))) }
        ensures puts { no_puts ≡ no_puts }
        ensures asked { result ≢ Err Fault.NoMemory → (Some (requests_of self.new))
            ≡ with_request (Some (requests_of self.old)) (size_of path.now) }
        ensures not_asked { result ≡ Err Fault.NoMemory → (Some (requests_of self.new))
            ≡ (Some (requests_of self.old)) }
        ensures cause { result ≡ Err Fault.Failed → (link_failing self.new).faults
            ≡ raised (link_failing self.old).faults }
        ensures calm { result ≢ Err Fault.Failed → (link_failing self.new).faults ≡ (link_failing self.old).faults }
        ensures never_falls { (link_failing self.old).faults ≤ (link_failing self.new).faults }
        ensures stays_steady { IsTrue (is_quiet (link_failing self.old)) → IsTrue (is_quiet (link_failing self.new)) }

        // What is said of this link alone.
        ensures due { is_due (link_failing self.old) ≡ true → result ≢ Err Fault.NoMemory → result ≡ Err Fault.Failed }
        ensures spared { is_due (link_failing self.old) ≡ false → Holds (Some (files_of (shelf_of self.old))) path.now
            → result ≢ Err Fault.Failed }
        ensures called { result ≢ Err Fault.NoMemory → (link_failing self.new).calls
            ≡ raised (link_failing self.old).calls }
        ensures listed { (link_failing self.new).listed ≡ (link_failing self.old).listed }
    {
        self.note_size(path)?;
        if self.failing.strike() {
            return Err(Fault::Failed);
        }
        match self.shelf.get(path) {
            Some(bytes) => Ok(bytes.len() as u64),
            None => {
                self.failing.raise();
                Err(Fault::Failed)
            }
        }
    }

    /// Fails exactly at the listed calls and where the range isn't held.
    fn read_at(&mut self, path: &str, at: u64, buf: &mut [u8]) -> Result<(), Fault>
        ensures bytes { OnOk result (HasBytes (Some (files_of (shelf_of self.old))) path.now at buf.new) }
        ensures absent { LacksRange (Some (files_of (shelf_of self.old)))
            (record { path = path.now; start = at; len = length buf.old }) → result ≢ Err Fault.NoMemory → result
            ≡ Err Fault.Failed }
        ensures steady { IsTrue (is_quiet (link_failing self.old))
            → HasRange (Some (files_of (shelf_of self.old)))
            (record { path = path.now; start = at; len = length buf.old }) → result ≢ Err Fault.Failed }
        ensures same { (Some (files_of (shelf_of self.new))) ≡ (Some (files_of (shelf_of self.old))) }
        ensures puts { no_puts ≡ no_puts }
        ensures asked { result ≢ Err Fault.NoMemory → (Some (requests_of self.new))
            ≡ with_request (Some (requests_of self.old))
            (bytes_of (record { path = path.now; start = at; len = length buf.old })) }
        ensures not_asked { result ≡ Err Fault.NoMemory → (Some (requests_of self.new))
            ≡ (Some (requests_of self.old)) }
        ensures cause { result ≡ Err Fault.Failed → (link_failing self.new).faults
            ≡ raised (link_failing self.old).faults }
        ensures calm { result ≢ Err Fault.Failed → (link_failing self.new).faults ≡ (link_failing self.old).faults }
        ensures never_falls { (link_failing self.old).faults ≤ (link_failing self.new).faults }
        ensures stays_steady { IsTrue (is_quiet (link_failing self.old)) → IsTrue (is_quiet (link_failing self.new)) }

        // What is said of this link alone.
        ensures due { is_due (link_failing self.old) ≡ true → result ≢ Err Fault.NoMemory → result ≡ Err Fault.Failed }
        ensures spared { is_due (link_failing self.old) ≡ false
            → HasRange (Some (files_of (shelf_of self.old)))
            (record { path = path.now; start = at; len = length buf.old }) → result ≢ Err Fault.Failed }
        ensures called { result ≢ Err Fault.NoMemory → (link_failing self.new).calls
            ≡ raised (link_failing self.old).calls }
        ensures listed { (link_failing self.new).listed ≡ (link_failing self.old).listed }
    {
        self.note_range(path, at, buf.len())?;
        if self.failing.strike() {
            return Err(Fault::Failed);
        }
        match self.shelf.part(path, at, buf.len()) {
            Some(part) => {
                buf.copy_from_slice(part);
                Ok(())
            }
            None => {
                self.failing.raise();
                Err(Fault::Failed)
            }
        }
    }

    fn faults(&self) -> u64 {
        self.failing.faults()
    }
}
