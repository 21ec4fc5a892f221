//! A run of the program over things in memory, and how it ended.

use crate::case::{Failing, Hold, Thing};
use crate::holding::Holding;
use dr_case_lines::Broken;
use dr_outside::{Link, MemLink, MemSink, MemSource, Shelf};
use dr_serve::Gated;
use dr_top::run;
use std::alloc::Global;
use std::sync::Wait;
use std::thread::Threads;

/// What a run is given beside its files.
#[derive(Clone, Copy)]
pub struct Given<'a> {
    /// The words, the program's name first.
    pub words: &'a [String],
    pub input: &'a [u8],
    pub failing: &'a Failing,
    /// The links, from 0, of which each call fails.
    pub dead: &'a [u64],
    /// Which workers are held up.
    pub hold: Hold,
    /// The most bytes that one write takes.
    pub most: usize,
}

/// How a run ended.
#[derive(Drop)]
pub struct Ended {
    pub status: u8,
    pub out: Vec<u8>,
    pub err: Vec<u8>,
    /// The counts of faults, and of what the first link was asked for.
    source_faults: u64,
    out_faults: u64,
    err_faults: u64,
    keeper_faults: u64,
    asked: u64,
    /// Whether those workers were held up, and none in vain.
    pub was_held: bool,
}

impl Ended {
    /// How it ended, in lines.
    pub fn told(&self, alloc: Global) -> Result<String, Broken> {
        let out = str::from_utf8(&self.out).unwrap_or("(no text)");
        let err = str::from_utf8(&self.err).unwrap_or("(no text)");
        let status = self.status;
        Ok(format!(in alloc; "ended with {status}; out:\n{out}err:\n{err}")?)
    }

    /// Whether this call of a thing was made, which was to fail.
    pub fn has_made(&self, thing: Thing, call: u64) -> bool {
        match thing {
            Thing::Source => self.source_faults > 0,
            Thing::Out => self.out_faults > 0,
            Thing::Err => self.err_faults > 0,
            Thing::Keeper => self.keeper_faults > 0,
            Thing::Link => self.asked >= call,
        }
    }
}

/// The number of links.
const LINKS: u32 = 16;

/// More calls of a link than a case makes.
const MOST_CALLS: u64 = 1_000;

/// A worker's link over a shelf, behind the gate.
type Worker<'a> = Gated<'a, MemLink<'a>, Holding>;

/// The calls at which a link fails: all, the first one's that are said, or none.
fn failing_of(alloc: Global, given: Given<'_>, link: u32) -> Result<Vec<u64>, Broken> {
    let mut calls = Vec::new(alloc);
    if given.dead.contains(&u64::from(link)) {
        for call in 1..=MOST_CALLS {
            calls.push(call)?;
        }
    } else if link == 0 {
        return Ok(given.failing.link.to_vec(alloc)?);
    }
    Ok(calls)
}

/// Sixteen links over a shelf, behind a gate.
fn links_over<'a>(
    alloc: Global,
    shelf: &'a Shelf,
    gate: &'a Holding,
    given: Given<'_>,
) -> Result<Vec<Worker<'a>>, Broken> {
    let mut links = Vec::new(alloc);
    for number in 0..LINKS {
        let link = MemLink::new(alloc, shelf, failing_of(alloc, given, number)?);
        links.push(Gated::new(link, gate, number))?;
    }
    Ok(links)
}

/// The program's status for these words. It wants sixteen links.
fn status_of<R: Threads + Wait + Sync>(
    rt: &R,
    alloc: Global,
    words: &[String],
    source: &mut MemSource<'_>,
    out: &mut MemSink,
    err: &mut MemSink,
    keeper: &mut Shelf,
    links: &mut [Worker<'_>],
) -> Result<u8, Broken> {
    if links.len() < 16 {
        return Err(Broken::Form);
    }
    Ok(run(rt, alloc, words, source, out, err, keeper, links))
}

/// How a run ends over a keeper, and links over a shelf.
pub fn outcome<R: Threads + Wait + Sync>(
    rt: &R,
    alloc: Global,
    given: Given<'_>,
    keeper: &mut Shelf,
    shelf: &Shelf,
) -> Result<Ended, Broken> {
    let failing = given.failing;
    let mut source = MemSource::new(given.input, failing.source.to_vec(alloc)?);
    let most = if given.most == 0 { 1 } else { given.most };
    let mut out = MemSink::narrow(alloc, most, failing.out.to_vec(alloc)?);
    let mut err = MemSink::new(alloc, failing.err.to_vec(alloc)?);
    let gate = Holding::new(given.hold);
    let mut links = links_over(alloc, shelf, &gate, given)?;
    let status = status_of(
        rt,
        alloc,
        given.words,
        &mut source,
        &mut out,
        &mut err,
        keeper,
        &mut links,
    )?;
    let asked = links
        .first()
        .map_or(0, |worker| worker.link.asked().len() as u64);
    Ok(Ended {
        status,
        out: out.written().to_vec(alloc)?,
        err: err.written().to_vec(alloc)?,
        source_faults: source.faults(),
        out_faults: out.faults(),
        err_faults: err.faults(),
        keeper_faults: Link::faults(keeper),
        asked,
        was_held: gate.was_kept(),
    })
}
