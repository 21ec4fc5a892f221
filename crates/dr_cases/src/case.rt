//! One run: what it is given, and how it is to end.

use crate::each::Each;
use dr_case_lines::{Broken, numbers_of};
use std::alloc::Global;

/// What the program meets outside itself.
#[derive(Clone, Copy, PartialEq, Eq)]
pub enum Thing {
    Source,
    Out,
    Err,
    Link,
    Keeper,
}

impl Thing {
    /// The thing that a word names.
    pub fn named(word: &str) -> Result<Thing, Broken> {
        match word {
            "source" => Ok(Thing::Source),
            "out" => Ok(Thing::Out),
            "err" => Ok(Thing::Err),
            "link" => Ok(Thing::Link),
            "keeper" => Ok(Thing::Keeper),
            _ => Err(Broken::Form),
        }
    }
}

/// The calls that fail, counted from 1.
#[derive(Drop)]
pub struct Failing {
    pub source: Vec<u64>,
    pub out: Vec<u64>,
    pub err: Vec<u64>,
    pub link: Vec<u64>,
    pub keeper: Vec<u64>,
}

impl Failing {
    /// No call fails.
    pub fn none(alloc: Global) -> Self {
        Failing {
            source: Vec::new(alloc),
            out: Vec::new(alloc),
            err: Vec::new(alloc),
            link: Vec::new(alloc),
            keeper: Vec::new(alloc),
        }
    }

    /// Has these calls of a thing fail.
    pub fn set(&mut self, thing: Thing, calls: Vec<u64>) {
        match thing {
            Thing::Source => self.source = calls,
            Thing::Out => self.out = calls,
            Thing::Err => self.err = calls,
            Thing::Link => self.link = calls,
            Thing::Keeper => self.keeper = calls,
        }
    }
}

/// Which workers are held up before a read.
#[derive(Clone, Copy, PartialEq, Eq)]
pub enum Hold {
    Nobody,
    /// The first two, before their first reads, until both are there.
    Meeting,
    /// The first, before its first read, until the others have begun so many reads, which begin when it is there.
    Late(u64),
}

/// One run: what it is given, and how it is to end.
#[derive(Drop)]
pub struct Case {
    /// The words behind the program's name; of a query that is asked in each way, its text alone.
    pub words: Vec<String>,
    /// Whether there is a run at all.
    pub is_run: bool,
    /// Whether it is a query that is asked in each way.
    pub is_asked: bool,
    pub failing: Failing,
    /// The links, from 0, of which each call fails.
    pub dead: Vec<u64>,
    /// Which workers are held up.
    pub hold: Hold,
    /// How the runs end in which a call fails, one call at a time.
    pub each: Vec<Each>,
    /// The most bytes that one write takes.
    pub most: usize,
    pub status: u8,
    /// Whether it is said what is printed.
    pub has_out: bool,
    pub out: Vec<u8>,
    pub err: Vec<u8>,
}

impl Case {
    /// A run of no words, which is to end with 0 and to print nothing.
    pub fn new(alloc: Global) -> Self {
        Case {
            words: Vec::new(alloc),
            is_run: false,
            is_asked: false,
            failing: Failing::none(alloc),
            dead: Vec::new(alloc),
            hold: Hold::Nobody,
            each: Vec::new(alloc),
            most: usize::MAX,
            status: 0,
            has_out: false,
            out: Vec::new(alloc),
            err: Vec::new(alloc),
        }
    }

    /// Has calls fail, as `link 1 2` says. The keeper's are said where nothing is set up yet.
    pub fn fail(&mut self, alloc: Global, text: &str) -> Result<(), Broken> {
        let (thing, numbers) = text.split_once(' ').ok_or(Broken::Form)?;
        let thing = Thing::named(thing)?;
        if thing == Thing::Keeper {
            return Err(Broken::Form);
        }
        self.failing.set(thing, numbers_of(alloc, numbers)?);
        Ok(())
    }
}
