ghost use Rattle.std.specs.Prelude.{◌≡◌, ◌+◌, ◌≤◌, ℕ, List, length, IfSome, IfNone, None, Some};
ghost use Rattle.std.specs.Option.{option_map};
ghost use Rattle.std.specs.BTreeMap.{get_by_text};
ghost use Rattle.dr_outside.specs.Failing.{unused};
ghost use Rattle.dr_outside.specs.Link.{IsPartAt, FallsShort};
ghost use Rattle.dr_outside.specs.Puts.{bytes_at, end_of};

use crate::failures::Failures;
use crate::{Fault, Keeper, Link};
use std::alloc::Global;
use std::collections::BTreeMap;

/// A put: a path and the bytes for it.
#[derive(Debug, Drop)]
pub struct Put {
    pub path: String,
    pub bytes: Vec<u8>,
}

/// Files in memory. A shelf keeps the list of what was put, given or refused.
#[derive(Drop)]
pub struct Shelf {
    alloc: Global,
    puts: Vec<Put>,
    // At each path that is held the place of its put in the list.
    held: BTreeMap<String, usize>,
    failing: Failures,
    ghost placed: { (path : List ℕ) → end_of (get_by_text held path) ≤ length puts.items },
}

// The bytes of the put at a place.
fn bytes_at(puts: &[Put], place: usize) -> Option<&[u8]>
    ensures { option_map (λ bytes. bytes.now) result ≡ bytes_at puts.now (Some place) }
{
    match puts.get(place) {
        Some(put) => Some(put.bytes.as_slice()),
        None => None,
    }
}

// The `len` bytes from `at` on.
fn part_of(bytes: &[u8], at: u64, len: usize) -> Option<&[u8]>
    ensures part { IfSome result (λ part. IsPartAt (Some bytes.now) at part.now) }
    ensures len { IfSome result (λ part. length part.now ≡ len) }
    ensures short { IfNone result (FallsShort (Some bytes.now) (at + len)) }
{
    let start = at as usize;
    if start > bytes.len() || bytes.len() - start < len {
        return None;
    }
    Some(&bytes[start..][..len])
}

impl Shelf {
    ghost use Rattle.std.specs.Prelude.{[], map};
    ghost use Rattle.dr_outside.specs.Puts.{put_of};
    ghost use Rattle.dr_outside.specs.Shelf.{files_of, puts_of, shelf_failing};

    /// No files. The calls with these numbers fail, counted from 1.
    pub fn new(alloc: Global, failing: Vec<u64>) -> Self
        ensures empty { (path : _) → files_of result path ≡ None }
        ensures puts { puts_of result ≡ [] }
        ensures failing { shelf_failing result ≡ unused failing.items }
    {
        Shelf {
            alloc,
            puts: Vec::new(alloc),
            held: BTreeMap::new(alloc),
            failing: Failures::new(failing),
        }
    }

    /// The bytes at a path.
    pub fn get(&self, path: &str) -> Option<&[u8]>
        ensures { option_map (λ bytes. bytes.now) result ≡ files_of self.now path.now }
    {
        match self.held.get(path) {
            Some(place) => bytes_at(&self.puts, *place),
            None => None,
        }
    }

    /// What was put, in order, given or refused.
    pub fn puts(&self) -> &[Put]
        ensures { map put_of result.now ≡ puts_of self.now }
    {
        &self.puts
    }

    // The `len` bytes of a path from `at` on.
    pub(crate) fn part(&self, path: &str, at: u64, len: usize) -> Option<&[u8]>
        ensures part { IfSome result (λ part. IsPartAt (files_of self.now path.now) at part.now) }
        ensures len { IfSome result (λ part. length part.now ≡ len) }
        ensures short { IfNone result (FallsShort (files_of self.now path.now) (at + len)) }
    {
        match self.get(path) {
            Some(bytes) => part_of(bytes, at, len),
            None => None,
        }
    }
}

impl Link for Shelf {
    ghost use Rattle.std.specs.Prelude.{◌≢◌, ◌≤◌, ℕ, List, Bool, true, false, Some, None, length, IsTrue, IfOk, OnOk, Err};
    ghost use Rattle.dr_outside.specs.Failing.{is_due, is_quiet};
    ghost use Rattle.dr_outside.specs.Faults.{raised};
    ghost use Rattle.dr_outside.specs.Link.{Holds, Lacks, HasRange, LacksRange, HasSize, HasBytes, size_of, bytes_of, with_request, unknown};
    ghost use Rattle.dr_outside.specs.Shelf.{files_of, puts_of, shelf_failing};

    ghost shows = { λ s. record {
      held = Some (files_of s);
      asked = unknown;
      puts = Some (puts_of s);
      faults = (shelf_failing s).faults;
      is_steady = is_quiet (shelf_failing s);
    } };

    /// Fails exactly at the listed calls and where the path isn't held.
    fn size(&mut self, path: &str) -> Result<u64, Fault>
        ensures bytes { IfOk result (λ n. HasSize (Some (files_of self.old)) path.now n) }
        ensures absent { Lacks (Some (files_of self.old)) path.now → result ≢ Err Fault.NoMemory → result
            ≡ Err Fault.Failed }
        ensures steady { IsTrue (is_quiet (shelf_failing self.old)) → Holds (Some (files_of self.old)) path.now → result
            ≢ Err Fault.Failed }
        ensures same { (Some (files_of self.new)) ≡ (Some (files_of self.old)) }
        ensures puts { Some (puts_of self.new) ≡ Some (puts_of self.old) }
        ensures asked { result ≢ Err Fault.NoMemory → unknown ≡ with_request unknown (size_of path.now) }
        ensures not_asked { result ≡ Err Fault.NoMemory → unknown ≡ unknown }
        ensures cause { result ≡ Err Fault.Failed → (shelf_failing self.new).faults
            ≡ raised (shelf_failing self.old).faults }
        ensures calm { result ≢ Err Fault.Failed → (shelf_failing self.new).faults ≡ (shelf_failing self.old).faults }
        ensures never_falls { (shelf_failing self.old).faults ≤ (shelf_failing self.new).faults }
        ensures stays_steady { IsTrue (is_quiet (shelf_failing self.old)) → IsTrue (is_quiet (shelf_failing self.new)) }

        // What is said of this shelf alone.
        ensures due { is_due (shelf_failing self.old) ≡ true → result ≢ Err Fault.NoMemory → result ≡ Err Fault.Failed }
        ensures spared { is_due (shelf_failing self.old) ≡ false → Holds (Some (files_of self.old)) path.now → result
            ≢ Err Fault.Failed }
        ensures called { result ≢ Err Fault.NoMemory → (shelf_failing self.new).calls
            ≡ raised (shelf_failing self.old).calls }
        ensures listed { (shelf_failing self.new).listed ≡ (shelf_failing self.old).listed }
        ensures memory { result ≢ Err Fault.NoMemory }
    {
        if self.failing.strike() {
            return Err(Fault::Failed);
        }
        match self.get(path) {
            Some(bytes) => Ok(bytes.len() as u64),
            None => {
                self.failing.raise();
                Err(Fault::Failed)
            }
        }
    }

    /// Fails exactly at the listed calls and where the range isn't held.
    fn read_at(&mut self, path: &str, at: u64, buf: &mut [u8]) -> Result<(), Fault>
        ensures bytes { OnOk result (HasBytes (Some (files_of self.old)) path.now at buf.new) }
        ensures absent { LacksRange (Some (files_of self.old))
            (record { path = path.now; start = at; len = length buf.old }) → result ≢ Err Fault.NoMemory → result
            ≡ Err Fault.Failed }
        ensures steady { IsTrue (is_quiet (shelf_failing self.old))
            → HasRange (Some (files_of self.old)) (record { path = path.now; start = at; len = length buf.old })
            → result ≢ Err Fault.Failed }
        ensures same { (Some (files_of self.new)) ≡ (Some (files_of self.old)) }
        ensures puts { Some (puts_of self.new) ≡ Some (puts_of self.old) }
        ensures asked { result ≢ Err Fault.NoMemory → unknown
            ≡ with_request unknown (bytes_of (record { path = path.now; start = at; len = length buf.old })) }
        ensures not_asked { result ≡ Err Fault.NoMemory → unknown ≡ unknown }
        ensures cause { result ≡ Err Fault.Failed → (shelf_failing self.new).faults
            ≡ raised (shelf_failing self.old).faults }
        ensures calm { result ≢ Err Fault.Failed → (shelf_failing self.new).faults ≡ (shelf_failing self.old).faults }
        ensures never_falls { (shelf_failing self.old).faults ≤ (shelf_failing self.new).faults }
        ensures stays_steady { IsTrue (is_quiet (shelf_failing self.old)) → IsTrue (is_quiet (shelf_failing self.new)) }

        // What is said of this shelf alone.
        ensures due { is_due (shelf_failing self.old) ≡ true → result ≢ Err Fault.NoMemory → result ≡ Err Fault.Failed }
        ensures spared { is_due (shelf_failing self.old) ≡ false
            → HasRange (Some (files_of self.old)) (record { path = path.now; start = at; len = length buf.old })
            → result ≢ Err Fault.Failed }
        ensures called { result ≢ Err Fault.NoMemory → (shelf_failing self.new).calls
            ≡ raised (shelf_failing self.old).calls }
        ensures listed { (shelf_failing self.new).listed ≡ (shelf_failing self.old).listed }
        ensures memory { result ≢ Err Fault.NoMemory }
    {
        if self.failing.strike() {
            return Err(Fault::Failed);
        }
        match self.part(path, at, buf.len()) {
            Some(part) => {
                buf.copy_from_slice(part);
                Ok(())
            }
            None => {
                self.failing.raise();
                Err(Fault::Failed)
            }
        }
    }

    fn faults(&self) -> u64 {
        self.failing.faults()
    }
}

impl Keeper for Shelf {
    ghost use Rattle.std.specs.Prelude.{◌≢◌, ◌≤◌, true, false, Some, IsTrue, OnOk, Err};
    ghost use Rattle.dr_outside.specs.Failing.{is_due, is_quiet, after_call};
    ghost use Rattle.dr_outside.specs.Faults.{raised};
    ghost use Rattle.dr_outside.specs.Link.{HasFile, SameElsewhere, with_put, unknown};
    ghost use Rattle.dr_outside.specs.Shelf.{files_of, puts_of, shelf_failing};

    /// Fails exactly at the listed calls.
    fn put(&mut self, path: &str, bytes: &[u8]) -> Result<(), Fault>
        ensures placed { OnOk result (HasFile (Some (files_of self.old))
            (Some (files_of self.new)) path.now bytes.now) }
        ensures others { SameElsewhere (Some (files_of self.old)) (Some (files_of self.new)) path.now }
        ensures steady { IsTrue (is_quiet (shelf_failing self.old)) → result ≢ Err Fault.Failed }
        ensures put { result ≢ Err Fault.NoMemory → Some (puts_of self.new)
            ≡ with_put (Some (puts_of self.old)) (record { path = path.now; bytes = bytes.now }) }
        ensures not_put { result ≡ Err Fault.NoMemory → Some (puts_of self.new) ≡ Some (puts_of self.old) }
        ensures asked { unknown ≡ unknown }
        ensures cause { result ≡ Err Fault.Failed → (shelf_failing self.new).faults
            ≡ raised (shelf_failing self.old).faults }
        ensures calm { result ≢ Err Fault.Failed → (shelf_failing self.new).faults ≡ (shelf_failing self.old).faults }
        ensures never_falls { (shelf_failing self.old).faults ≤ (shelf_failing self.new).faults }
        ensures stays_steady { IsTrue (is_quiet (shelf_failing self.old)) → IsTrue (is_quiet (shelf_failing self.new)) }

        // What is said of this shelf alone.
        ensures due { is_due (shelf_failing self.old) ≡ true → result ≢ Err Fault.NoMemory → result ≡ Err Fault.Failed }
        ensures spared { is_due (shelf_failing self.old) ≡ false → result ≢ Err Fault.Failed }
        ensures counted { result ≢ Err Fault.NoMemory → shelf_failing self.new ≡ after_call (shelf_failing self.old) }
        ensures stays { result ≡ Err Fault.NoMemory → (other : List ℕ) → files_of self.new other
            ≡ files_of self.old other }
    {
        let key = String::from_str(self.alloc, path)?;
        let put = Put {
            path: String::from_str(self.alloc, path)?,
            bytes: Vec::from_slice(self.alloc, bytes)?,
        };
        self.puts.reserve(1)?;
        if self.failing.strike() {
            self.puts.push_reserved(put);
            return Err(Fault::Failed);
        }
        self.held.insert(key, self.puts.len())?;
        self.puts.push_reserved(put);
        Ok(())
    }
}
