// Files on disk as a link and as a keeper. Neither tells what it holds.
ghost use Rattle.std.specs.Prelude.{◌≡◌, ◌≢◌, ◌≤◌, ◌+◌, length, Ok, Err, false, Some, None, IfSome, IsSome, IsOk, OnOk, OnErr};
ghost use Rattle.std.specs.BTreeMap.{get_by_text};
ghost use Rattle.dr_outside.specs.Faults.{raised};
ghost use Rattle.dr_outside.specs.Link.{IsPartAt, FallsShort};

use crate::placing::{Claim, place};
use crate::whole::{copy_range, read_whole, tells_size};
use dr_outside::{Fault, Keeper, Link};
use std::alloc::Global;
use std::collections::BTreeMap;
use std::fs::{File, OpenFile};
use std::io::ErrorKind;
use std::os::unix::fs::FileExt;
use std::rt::Files;
use std::{fs, io};

/// The files that are named by their paths. It keeps the file open that it read last. One that doesn't tell its size,
/// as a pipe, is read whole at its first use, at most 256 MiB of it, and served from memory from then on.
#[derive(Drop)]
pub struct DirLink<R: Files> {
    alloc: Global,
    files: R,
    last: Option<Opened<R::File>>,
    whole: BTreeMap<String, Vec<u8>>,
    faults: u64,
}

#[derive(Drop)]
struct Opened<F> {
    path: String,
    file: F,
}

// Counts a fault, unless memory ran out.
fn counted<T>(faults: &mut u64, answer: io::Result<T>) -> Result<T, Fault>
    ensures rose { result ≡ Err Fault.Failed → faults.new ≡ raised faults.old }
    ensures calm { result ≢ Err Fault.Failed → faults.new ≡ faults.old }
    ensures never_falls { faults.old ≤ faults.new }
{
    match answer {
        Ok(value) => Ok(value),
        Err(error) if error.kind() == ErrorKind::OutOfMemory => Err(Fault::NoMemory),
        Err(_) => {
            *faults = faults.saturating_add(1);
            Err(Fault::Failed)
        }
    }
}

impl<R: Files> DirLink<R>
where
    R::File: FileExt,
{
    /// The files that `files` reaches. No fault is counted yet.
    pub fn new(alloc: Global, files: R) -> Self
        ensures { (⟦<DirLink<R> as Link>⟧.shows result).faults ≡ 0 }
    {
        DirLink {
            alloc,
            files,
            last: None,
            whole: BTreeMap::new(alloc),
            faults: 0,
        }
    }

    // Whether the file at a path is kept open.
    fn is_open(&self, path: &str) -> bool {
        match &self.last {
            Some(last) => last.path.as_str() == path,
            None => false,
        }
    }

    // The file at a path, which is no longer kept open.
    fn take_file(&mut self, path: &str) -> io::Result<Opened<R::File>>
        ensures faults { self.new.faults ≡ self.old.faults }
        ensures whole { self.new.whole ≡ self.old.whole }
    {
        if let Some(last) = self.last.take()
            && last.path.as_str() == path
        {
            return Ok(last);
        }
        let file = File::open(&self.files, path)?;
        let path = String::from_str(self.alloc, path)?;
        Ok(Opened { path, file })
    }

    // Opens the file at a path, if it isn't at hand: one that doesn't tell its size is read whole.
    fn reach(&mut self, path: &str) -> io::Result<()>
        ensures faults { self.new.faults ≡ self.old.faults }
        ensures whole { IsSome (get_by_text self.old.whole path.now) → self.new.whole ≡ self.old.whole }
        ensures reached { IsSome (get_by_text self.old.whole path.now) → IsOk result }
    {
        if self.whole.contains_key(path) || self.is_open(path) {
            return Ok(());
        }
        let opened = self.take_file(path)?;
        if tells_size(&opened.file)? {
            self.last = Some(opened);
            return Ok(());
        }
        let bytes = read_whole(self.alloc, opened.file)?;
        self.whole.insert(opened.path, bytes)?;
        Ok(())
    }

    fn file_size(&mut self, path: &str) -> io::Result<u64>
        ensures faults { self.new.faults ≡ self.old.faults }
        ensures whole { IfSome (get_by_text self.old.whole path.now) (λ bytes. result ≡ Ok (length bytes.items)) }
        ensures stays { IsSome (get_by_text self.old.whole path.now) → self.new.whole ≡ self.old.whole }
    {
        self.reach(path)?;
        if let Some(bytes) = self.whole.get(path) {
            return Ok(bytes.len() as u64);
        }
        let opened = self.take_file(path)?;
        let size = opened.file.metadata()?.len();
        self.last = Some(opened);
        Ok(size)
    }

    fn read_range(&mut self, path: &str, at: u64, buf: &mut [u8]) -> io::Result<()>
        ensures faults { self.new.faults ≡ self.old.faults }
        ensures part { IfSome (get_by_text self.old.whole path.now)
            (λ bytes. OnOk result (IsPartAt (Some bytes.items) at buf.new)) }
        ensures short { IfSome (get_by_text self.old.whole path.now)
            (λ bytes. OnErr result (FallsShort (Some bytes.items) (at + length buf.old))) }
        ensures stays { IsSome (get_by_text self.old.whole path.now) → self.new.whole ≡ self.old.whole }
    {
        self.reach(path)?;
        if let Some(bytes) = self.whole.get(path) {
            return copy_range(bytes, at, buf);
        }
        let opened = self.take_file(path)?;
        opened.file.read_exact_at(buf, at)?;
        self.last = Some(opened);
        Ok(())
    }
}

impl<R: Files> Link for DirLink<R>
where
    R::File: FileExt,
{
    ghost shows = { λ s. record { held = None; asked = None; puts = None; faults = s.faults; is_steady = false } };

    fn size(&mut self, path: &str) -> Result<u64, Fault> {
        let answer = self.file_size(path);
        counted(&mut self.faults, answer)
    }

    fn read_at(&mut self, path: &str, at: u64, buf: &mut [u8]) -> Result<(), Fault> {
        let answer = self.read_range(path, at, buf);
        counted(&mut self.faults, answer)
    }

    fn faults(&self) -> u64 {
        self.faults
    }
}

/// The same files, which can also be replaced, each whole or not at all. It makes no folders.
#[derive(Drop)]
pub struct DirKeeper<R: Files> {
    link: DirLink<R>,
}

impl<R: Files> DirKeeper<R>
where
    R::File: FileExt + Claim,
{
    /// The files that `files` reaches. No fault is counted yet.
    pub fn new(alloc: Global, files: R) -> Self
        ensures { (⟦<DirKeeper<R> as Link>⟧.shows result).faults ≡ 0 }
    {
        DirKeeper {
            link: DirLink::new(alloc, files),
        }
    }
}

impl<R: Files> Link for DirKeeper<R>
where
    R::File: FileExt + Claim,
{
    ghost shows = { λ s. record { held = None; asked = None; puts = None; faults = s.link.faults; is_steady = false } };

    fn size(&mut self, path: &str) -> Result<u64, Fault> {
        self.link.size(path)
    }

    fn read_at(&mut self, path: &str, at: u64, buf: &mut [u8]) -> Result<(), Fault> {
        self.link.read_at(path, at, buf)
    }

    fn faults(&self) -> u64 {
        self.link.faults()
    }
}

impl<R: Files> Keeper for DirKeeper<R>
where
    R::File: FileExt + Claim,
{
    fn put(&mut self, path: &str, bytes: &[u8]) -> Result<(), Fault> {
        self.link.last = None;
        self.link.whole.remove(path);
        let answer = place(self.link.alloc, &self.link.files, path, bytes);
        counted(&mut self.link.faults, answer)
    }
}
