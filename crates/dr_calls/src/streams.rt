//! A call of `dr_file`: a leaf's column, read a batch at a time.

ghost use Rattle.std.specs.Prelude.{◌≡◌, ◌<◌};
ghost use Rattle.dr_levels.specs.Views.{column_form};
ghost use Rattle.dr_file.specs.OpenedFiles.{leaf_count};
ghost use Rattle.dr_file.specs.Streams.{stream_form};

use crate::faults::file_line;
use crate::texts::argument;
use dr_case_lines::Broken;
use dr_file::{FileFault, Opened, Stream};
use dr_levels::Column;
use dr_nested::{find, parse_schema};
use dr_outside::{Keeper, MemLink, Shelf};
use std::alloc::Global;
use std::slice;

/// Where the file stands.
const PATH: &str = "t";

/// The most batches that are read.
const MOST_BATCHES: u32 = 1_000_000;

/// What came of a stream so far: how many batches and triplets, and the least and the most bytes that were held behind
/// a batch.
#[derive(Clone, Copy)]
struct Told {
    batches: u64,
    triplets: u64,
    least: u64,
    most: u64,
}

impl Told {
    const NOTHING: Told = Told {
        batches: 0,
        triplets: 0,
        least: u64::MAX,
        most: 0,
    };

    /// With one more batch.
    fn with_batch(self, triplets: usize, held: u64) -> Told {
        Told {
            batches: self.batches.saturating_add(1),
            triplets: self.triplets.saturating_add(triplets as u64),
            least: self.least.min(held),
            most: self.most.max(held),
        }
    }

    /// Its line.
    fn line(self, alloc: Global) -> Result<String, Broken> {
        let Told {
            batches,
            triplets,
            least,
            most,
        } = self;
        Ok(format!(in alloc;
            "{triplets} triplets in {batches} batches, {least} to {most} bytes held\n"
        )?)
    }
}

/// The next batch, in the place of the one before.
fn next_batch(
    alloc: Global,
    link: &mut MemLink<'_>,
    stream: &mut Stream<'_>,
    batch: &mut Column,
) -> Result<bool, FileFault>
    requires { column_form batch.old ≡ stream_form stream.old }
    ensures { column_form batch.new ≡ stream_form stream.new }
{
    batch.clear();
    stream.next(alloc, link, batch)
}

/// The line of all batches of an opened file's first leaf, or of their fault.
fn all_batches(alloc: Global, link: &mut MemLink<'_>, opened: &Opened) -> Result<String, Broken>
    requires { 0 < leaf_count opened.now }
{
    let mut stream = Stream::start(alloc, opened, 0)?;
    let mut batch = stream.column(alloc);
    let mut told = Told::NOTHING;
    'batches: for _ in 0..MOST_BATCHES {
        match next_batch(alloc, link, &mut stream, &mut batch) {
            Ok(true) => told = told.with_batch(batch.len(), stream.held()),
            Ok(false) => return told.line(alloc),
            Err(fault) => return file_line(alloc, fault),
        }
    }
    Err(Broken::Form)
}

/// `stream PATH SCHEMA`: how the column of a leaf comes of the file that bytes are, a batch at a time; or the fault.
pub fn stream_read(alloc: Global, words: &[String], bytes: &[u8]) -> Result<String, Broken> {
    let schema = parse_schema(alloc, argument(words, 1)?.as_bytes()).or(Err(Broken::Form))?;
    let field = find(alloc, &schema, argument(words, 0)?).or(Err(Broken::Form))?;
    let mut shelf = Shelf::new(alloc, Vec::new(alloc));
    if shelf.put(PATH, bytes).is_err() {
        return Err(Broken::NoMemory);
    }
    let mut link = MemLink::new(alloc, &shelf, Vec::new(alloc));
    match Opened::start(alloc, &mut link, PATH, slice::from_ref(&field)) {
        Ok(opened) => all_batches(alloc, &mut link, &opened),
        Err(fault) => file_line(alloc, fault),
    }
}
